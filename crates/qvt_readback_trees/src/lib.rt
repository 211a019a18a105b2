//! The tree that the tokens of a printed text are read as.
#![tactic(auto)]

pub mod law;
