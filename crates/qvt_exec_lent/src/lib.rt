//! Operations over a source that is lent: the value of a variable, or a list of the store, where it stands.
#![tactic(auto)]

pub mod given;
pub mod sources;
