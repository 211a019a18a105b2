//! The checks of a metamodel by its names.
#![tactic(auto)]

pub mod checks;
mod ends;
pub mod name_set;
pub mod names;
pub mod opposites;
pub mod texts;
