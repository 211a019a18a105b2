//! The walk of typing over the expressions and statements of a transformation: each node judges its parts in the order of the text, and
//! is settled by their types.
#![tactic(auto)]

pub mod blocks;
pub mod expressions;
mod inside;
mod knot;
mod levels;
pub mod statements;
