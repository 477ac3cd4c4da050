// A node of node words.

#[derive(Clone, Copy)]
pub struct Node {
    pub kind: u64,
    pub first: u64,
    pub second: u64,
    pub value: u64,
}

// A signed number i is kept as the word 2^31 + i.
pub const SIGNED_OFFSET: u64 = 2147483648;

// 1 as it is kept.
pub const SIGNED_ONE: u64 = 2147483649;
