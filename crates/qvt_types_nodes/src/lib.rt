//! The tree of a transformation with what typing writes on its nodes: wherever there is a place, a note.
#![tactic(auto)]

pub mod module;
pub mod tree;
pub mod types;
pub mod words;
