//! The end of a run: the late entries answered over the trace and the store that `main` left, and then written into their
//! slots. What answers them is a parameter.
#![tactic(auto)]

pub mod answers;
pub mod entries;
pub mod finish;
pub mod laws;
mod patches;
pub mod stop;
mod walk;
