// What the command-line program tells of a circuit that is accepted, of what was built from a log, and of the sum: the numbers that
// the words ask for, the file of columns and nodes, the verdict. Proved safe and ending.
#![tactic(auto)]

pub mod cuts;
pub mod explain;
mod files;
mod line;
pub mod output;
pub mod regroup;
pub mod shape;
pub mod verdict;
mod write_out;
