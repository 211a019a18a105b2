//! The store of a run: that of a program, with the input models of a job loaded into it.
#![tactic(auto)]

pub mod laws;
pub mod start;
