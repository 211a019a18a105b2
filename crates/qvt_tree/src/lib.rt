//! The tree of a transformation's text (QVT 1.3, 8.4), with what compares trees without places.
#![tactic(auto)]

pub use qvt_tree_types::{module, tree, types, words};

mod equal;
mod leaf;
pub mod shape;
