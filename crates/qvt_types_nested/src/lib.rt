//! Expressions and statements with what stands in them, joined with the notes of their nodes.
#![tactic(auto)]

pub mod exprs;
pub mod stmts;
