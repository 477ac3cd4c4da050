// backend.rs: circuit words read: the table of contents, the sections, and what follows from them.
#![tactic(auto)]

pub mod contents;
pub mod copied;
pub mod groups;
pub mod reader;
pub mod words;
