// What the numbers 15 and 17 of a build do not say: the first reading that stands in no row of its group's table, and the first
// denominator that is zero. The call has zeroed the columns, so those before m are filled anew. For messages: proved safe and
// ending, and that what is named is as said.
#![tactic(auto)]

pub mod denominators;
mod filled;
pub mod found;
mod search;
pub mod unlisted;

// A column by what it has: the compressed inputs of a lookup, the compressed table of a group, by its first lookup, or a copied column,
// counted among these.
#[derive(Clone, Copy)]
pub enum Column {
    Input(usize),
    Table(usize),
    Copied(usize),
}
