//! Words on values that the rules of a run speak of: logic, sources of steps, tests and queries by name,
//! what iterators make of the values of their bodies, and collection literals.
#![tactic(auto)]

pub mod iterators;
pub mod literals;
pub mod logic;
pub mod made;
pub mod readings;
pub mod sources;
