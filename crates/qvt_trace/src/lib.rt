//! The trace of a run (QVT 1.3, 8.1.12): its records in order, looked up by hash, by their keys and by their ends.
#![tactic(auto)]

pub mod fault;
pub mod keys;
mod table;
pub mod trace;
