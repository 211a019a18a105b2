//! What is told of units by the units beside them: names that stand twice, and the lists of mappings.
#![tactic(auto)]

pub mod listed;
pub mod reuses;
pub mod same;
pub mod telling;
pub mod traced;

pub use qvt_types_groups::{classes, signature, signatures, unit_names, units};
