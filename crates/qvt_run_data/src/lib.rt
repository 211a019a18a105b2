//! What a run keeps and tells: what is called, variables in scope, items with sort keys, records of the trace, requests,
//! late writes, what ends phrases, and the run's faults.
#![tactic(auto)]

pub mod callee;
pub mod exit;
pub mod fault;
pub mod keyed;
pub mod late;
pub mod local;
pub mod questions;
pub mod record;
pub mod request;
