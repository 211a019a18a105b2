//! Single names in expressions.
#![tactic(auto)]

pub mod sources;
