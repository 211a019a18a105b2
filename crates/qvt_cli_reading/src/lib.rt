//! What the commands read: the metamodels, the job and the program of `run`, and `check` and `print` whole.
#![tactic(auto)]

pub mod check;
pub mod job;
pub mod metas;
pub mod print;
mod source;
mod typing;
