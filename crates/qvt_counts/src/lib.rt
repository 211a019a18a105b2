//! How many of some sets each number is in.
#![tactic(auto)]

pub mod counter;
pub mod counts;
