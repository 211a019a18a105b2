//! Expressions: what each gives by its rule, over the phrases that stand inside it.
#![tactic(auto)]

mod conditionals;
pub mod exprs;
mod items;
mod leaves;
mod literals;
mod numbers;
mod operands;
mod stack;

pub use qvt_exec_steps::{engine, nested, units};
