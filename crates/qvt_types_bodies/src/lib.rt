//! The judgements of units: their heads and their bodies.
#![tactic(auto)]

pub mod contexts;
pub mod parts;
pub mod units;

pub use qvt_types_context::context;
