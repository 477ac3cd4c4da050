// Texts and numbers written, and files of words read and told of by name, line and token. Proved safe and ending.
#![tactic(auto)]

pub mod files;
pub mod host;
mod lines;
mod parts;
pub mod say;
mod token;
