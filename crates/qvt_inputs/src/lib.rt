//! The input models of a run: read, found to conform, and loaded in the order of the job.
#![tactic(auto)]

pub mod conforming;
pub mod inputs;
pub mod laws;
pub mod loaded;
