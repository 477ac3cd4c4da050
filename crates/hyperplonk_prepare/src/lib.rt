// What the calls compute from circuit words for which questions 1 to 11 and 18 are yes, before they build or sum: the numbers that the
// composed expression names.
#![tactic(auto)]

pub mod circuit;
pub mod inputs;
pub mod needed;
