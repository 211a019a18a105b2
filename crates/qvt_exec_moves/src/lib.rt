//! The steps that statements take on the state of a run, once their phrases have their values.
#![tactic(auto)]

pub mod assignments;
mod faults;
pub mod items;
pub mod late;
pub mod objects;
mod slots;
pub mod targets;
pub mod values;
pub mod variables;
