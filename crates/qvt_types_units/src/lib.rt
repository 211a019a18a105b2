//! The units of a transformation by their signatures.
#![tactic(auto)]

pub mod choice;
pub mod numbers;
pub mod overrides;
pub mod reuse;
pub mod signature;
pub mod signatures;
pub mod telling;

pub use qvt_types_classes::{classes, models};
