//! The form of a metamodel's file, and its data.
#![tactic(auto)]

pub mod forms;
pub mod reading;
