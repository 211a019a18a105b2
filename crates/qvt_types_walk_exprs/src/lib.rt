//! The walk of typing over expressions, over what stands inside them.
#![tactic(auto)]

pub mod calls;
pub mod conditionals;
pub mod exprs;
pub mod literals;
pub mod objects;
pub mod operands;
pub mod posts;
