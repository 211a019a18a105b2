//! The closure of a relation on numbers, and the test that computes it.
#![tactic(auto)]

mod law;

pub use law::reaches_is_closure;
