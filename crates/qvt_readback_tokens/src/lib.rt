//! The tokens of a printed text.
#![tactic(auto)]

pub mod law;
