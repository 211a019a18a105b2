//! The choice among the units of a name: what calls find for objects of each class.
#![tactic(auto)]

pub mod bits;
pub mod candidates;
pub mod choices;
pub mod class_choices;
pub mod class_sets;
pub mod only;
pub mod stuck;
pub mod tables;
