// What is wrong with the first offending word of refused circuit words, in words: what was expected, the limit or the range.
// Proved safe and ending.
#![tactic(auto)]

pub mod groups;
pub mod late;
pub mod layout;
pub mod section;
pub mod starts;
