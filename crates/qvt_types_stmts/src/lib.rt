//! The nodes of statements in a typed tree, made of parts that are joined already, in boxes.
#![tactic(auto)]

pub mod stmts;
