//! Phrases that leave all of the state of a run but its cost as it is; operations whose sources are lent.
#![tactic(auto)]

pub mod laws;
pub mod lent;
pub mod operations;
pub mod quiet;
