//! The nodes of expressions in a typed tree, made of parts that are joined already. Parts and nodes are held in boxes:
//! over further calls a box costs less than what it holds.
#![tactic(auto)]

pub mod boxes;
pub mod exprs;
pub mod steps;
