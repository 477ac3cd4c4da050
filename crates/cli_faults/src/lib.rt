// Where the first offending word of refused circuit words stands, and what is wrong with it. The searches are proved safe and
// ending.
#![tactic(auto)]

pub mod bounds;
pub mod cells;
pub mod degrees;
pub mod fault;
pub mod groups;
pub mod names;
pub mod nodes;
pub mod older;
