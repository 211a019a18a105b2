//! The closure of OCL as a machine that is fed one item at a time, with the value of the body for it.
#![tactic(auto)]

pub mod laws;
mod reached;
pub mod visits;
mod waiting;
