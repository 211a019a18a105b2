//! The laws of types and of typed trees.
#![tactic(auto)]

pub mod laws;
