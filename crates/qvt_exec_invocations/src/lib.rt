//! Calls of units, resolves that are not late, and object expressions, over what their parts do.
#![tactic(auto)]

mod callees;
pub mod calls;
pub mod objects;
pub mod resolves;

pub use qvt_exec_phrases::{engine, nested, units};
pub use qvt_exec_resolves::nodes;
