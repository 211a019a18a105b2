//! What a run asks of the units of a program: units by number, and which of them a call finds.
#![tactic(auto)]

pub mod callees;
pub mod choices;
pub mod numbers;
pub mod readings;

pub use qvt_types_program::program;
