//! The tree of a transformation's text (QVT 1.3, 8.4): modules and units, types, statements and
//! expressions, each with the place where it stands.
#![tactic(auto)]

pub mod module;
pub mod tree;
pub mod types;
pub mod words;
