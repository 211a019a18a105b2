//! Typing: the program of a transformation over metamodels, or the first of its refusals.
#![tactic(auto)]

pub mod accepting;
pub mod fault;
mod faults;
pub mod judged;

pub use qvt_types_program::program;
