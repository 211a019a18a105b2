//! The iterators of OCL as machines that are fed one item at a time, with the value of the body for it.
#![tactic(auto)]

pub mod conditions;
pub mod gathering;
pub mod handed;
pub mod laws;
pub mod selection;
pub mod sorting;
pub mod turns;

pub use qvt_exec_state::steps;
