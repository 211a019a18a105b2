//! The printed form of a transformation (QVT 1.3, 8.4): from the tree to its one text.
#![tactic(auto)]

pub mod levels;
pub mod pieces;
pub mod print;
pub mod tree;
pub mod units;
