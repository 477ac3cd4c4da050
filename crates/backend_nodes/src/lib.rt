// backend.rs: questions 7, 8 and 10 over node words.
#![tactic(auto)]

pub mod degrees;
pub mod layout;
pub mod lookups;
