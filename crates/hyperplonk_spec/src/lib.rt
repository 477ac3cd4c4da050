// What the calls of `hyperplonk` return; specs/ says what each call returns and writes.
// Kept: `number` stands beside values, which a refusal leaves 0, and is no Result: the C interface answers a number and all words, and document 01's definitions say both of a refusal.
#![tactic(auto)]

// What the building call returns.
#[derive(Clone, Copy)]
pub struct Built {
    pub number: u64,
    pub column_words: usize,
    pub nodes: usize,
    pub z_columns: usize,
}

// What a circuit asks for: the number of the first question answered no, 0 for none; column words, nodes of the composed expression,
// and the nodes that one evaluation of it on one row visits.
#[derive(Clone, Copy)]
pub struct Sizes {
    pub number: u64,
    pub column_words: usize,
    pub nodes: usize,
    pub visits: usize,
}

// What the row sum returns.
#[derive(Clone, Copy)]
pub struct RowSum {
    pub number: u64,
    pub sum: u64,
}

// What building and summing as one call returns: the building call's number and sizes, and 0, if it was refused; else the row sum's number and sum, and those sizes.
#[derive(Clone, Copy)]
pub struct Summed {
    pub number: u64,
    pub column_words: usize,
    pub nodes: usize,
    pub z_columns: usize,
    pub sum: u64,
}
