//! Steps behind a first part, over the expressions that stand inside them.
#![tactic(auto)]

mod arrows;
mod closures;
mod iterators;
pub mod late;
mod lent;
mod operations;
pub mod posts;
mod sources;
pub mod steps;
pub mod values;

pub use qvt_exec_invocations::{calls, engine, nested, objects, resolves, units};
pub use qvt_exec_types::nodes;
