//! Metamodels with the literals of one of them looked up by hash, and sets of texts.
#![tactic(auto)]

pub mod dictionary;
pub mod texts;
