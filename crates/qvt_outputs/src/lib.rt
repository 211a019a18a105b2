//! What a run leaves: the files of its models and of its trace, with the line that tells of it; or the line of what
//! ended it.
#![tactic(auto)]

pub mod laws;
pub mod left;
mod low;
mod models;
mod output;
pub mod run_end;
mod trace;
