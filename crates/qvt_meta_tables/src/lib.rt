//! The tables of numbered classes: the features of each, and what is above it.
#![tactic(auto)]

pub mod cycle;
pub mod inherited;
pub mod number_set;
pub mod order;
pub mod rows;
pub mod tables;
pub mod visit;
