// Where polynomials stand.

// Where the polynomials stand: how many rows each has, and how many there are of each kind. The preprocess columns begin at word
// `start` of the circuit words; the column words hold the instance, then the permutation columns, then the rest after `skipped` columns.
#[derive(Clone, Copy)]
pub struct Layout {
    pub rows: usize,
    pub instances: usize,
    pub preprocess: usize,
    pub start: usize,
    pub witness: usize,
    pub permutations: usize,
    pub skipped: usize,
    pub rest: usize,
}
