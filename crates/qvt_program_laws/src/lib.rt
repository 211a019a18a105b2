//! Laws of programs: what is true of every transformation that is accepted.
#![tactic(auto)]

pub mod laws;
