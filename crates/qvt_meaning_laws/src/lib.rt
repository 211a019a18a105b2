//! The laws of runs. Each function does nothing: its contract is the law.
#![tactic(auto)]

pub mod laws;
