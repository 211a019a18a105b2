//! The types before the steps of an expression. Typing notes the type of what stands before the first step alone.
#![tactic(auto)]

pub mod arguments;
pub mod before;
pub mod nodes;
pub mod resolves;
pub mod steps;

pub use qvt_types_program::program;
