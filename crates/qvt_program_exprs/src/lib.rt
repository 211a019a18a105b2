//! The expressions of a program by their numbers, and the conditions of filters with their variables.
#![tactic(auto)]

pub mod expressions;
pub mod index;
pub mod listed;
pub mod numbers;
pub mod statements;
pub mod table;
pub mod units;

pub use qvt_types_program::program;
