// Where an expression is evaluated.

// Where an expression is evaluated: a row, its place in the order, and EqXY's value there.
#[derive(Clone, Copy)]
pub struct Point {
    pub k: usize,
    pub row: usize,
    pub place: usize,
    pub eq: u64,
}
