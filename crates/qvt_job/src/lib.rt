//! The job of a run: its form, what its file holds, and whether its models are those of a transformation.
#![tactic(auto)]

pub mod job;
pub mod job_form;
pub mod laws;
pub mod parameters;
pub mod read_job;
