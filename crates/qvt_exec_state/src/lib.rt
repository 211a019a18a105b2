//! The state of the evaluation of a plain expression, and the steps that it takes on it.
#![tactic(auto)]

pub mod cost;
pub mod locals;
pub mod names;
pub mod state;
pub mod steps;

pub use qvt_live_store::store;
