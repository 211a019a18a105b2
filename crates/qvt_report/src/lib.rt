//! The line that a run tells: of a fault, of the end of the fuel, of a lower bound, or of what was done.
#![tactic(auto)]

pub mod extents;
pub mod lines;
mod names;
