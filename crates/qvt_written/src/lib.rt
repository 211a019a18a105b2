//! A law of models that are written: each conforms to its metamodel.
#![tactic(auto)]

pub mod laws;
