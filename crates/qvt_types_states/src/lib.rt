//! What typing carries from node to node: what is in scope, the next number of an expression, and what is told and noted so far.
#![tactic(auto)]

pub mod scope;
pub mod state;
pub mod steps;
