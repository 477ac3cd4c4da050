// What the command-line program says of circuit words, and of the words lent with them: the sections, the question that was
// answered no, where the first offending word stands and what is wrong with it, lengths and values that are not as they must
// be. Proved safe and ending.
#![tactic(auto)]

pub mod older;
pub mod question;
pub mod refusal;
pub mod sections;
pub mod values;

pub use cli_texts::say;
