// "Circuit words, a table of contents first": its words, and the places of the sections.

// The words of the contents: k, the stated maximum degree + 1, then the start and the count of each section, two words on for the next.
pub const K_WORD: usize = 0;

pub const STATED_WORD: usize = 1;

pub const FIRST_START: usize = 2;

pub const FIRST_COUNT: usize = 3;

pub const NEXT_START: usize = 4;

pub const INSTANCE_START: usize = 2;

pub const INSTANCE_COUNT: usize = 3;

pub const PREPROCESS_START: usize = 4;

pub const PREPROCESS_COUNT: usize = 5;

pub const ROUND_START: usize = 6;

pub const ROUND_COUNT: usize = 7;

pub const NODE_START: usize = 8;

pub const NODE_COUNT: usize = 9;

pub const CONSTRAINT_START: usize = 10;

pub const CONSTRAINT_COUNT: usize = 11;

pub const WIDTH_START: usize = 12;

pub const WIDTH_COUNT: usize = 13;

pub const PAIR_START: usize = 14;

pub const PAIR_COUNT: usize = 15;

pub const LENGTH_START: usize = 16;

pub const LENGTH_COUNT: usize = 17;

pub const CELL_START: usize = 18;

pub const CELL_COUNT: usize = 19;

pub const GROUP_START: usize = 20;

pub const GROUP_COUNT: usize = 21;

// The places of the sections. Kept as numbers: a place says where a section's two words stand, and the loops go over the places.
pub const INSTANCES: usize = 0;

pub const PREPROCESS: usize = 1;

pub const ROUNDS: usize = 2;

pub const NODES: usize = 3;

pub const CONSTRAINTS: usize = 4;

pub const WIDTHS: usize = 5;

pub const PAIRS: usize = 6;

pub const LENGTHS: usize = 7;

pub const CELLS: usize = 8;

pub const GROUPS: usize = 9;
