//! What a resolve is, what it looks from, what a late one keeps, and the objects that a trace has for a request.
#![tactic(auto)]

pub mod candidates;
pub mod disjuncts;
pub mod forms;
pub mod late;
pub mod nodes;
pub mod number_set;
pub mod sources;
pub mod units;
pub mod verdicts;

pub use qvt_trace::trace;
