//! The ids that objects have in a run: in what is written of it and told of it.
#![tactic(auto)]

mod places;
pub mod run_ids;
