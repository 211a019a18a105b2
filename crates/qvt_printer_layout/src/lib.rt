//! The pieces of a printed text, how each is spelled, and which blanks stand between them (QVT 1.3,
//! 8.4).
#![tactic(auto)]

pub mod layout;
pub mod piece;
pub mod words;
