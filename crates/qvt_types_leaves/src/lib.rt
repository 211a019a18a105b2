//! The parts of a typed tree that hold no expressions, joined of a tree and the notes of its nodes.
#![tactic(auto)]

pub mod heads;
pub mod leaves;
pub mod notes;
