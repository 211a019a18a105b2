//! How a command ends: its outcome with the line that tells of it, and the files that it writes.
#![tactic(auto)]

pub mod fetch;
pub mod plan;
pub mod refusal;
mod refusal_text;
pub mod report;
pub mod status;
pub mod stop;
