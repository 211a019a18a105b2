//! The classes and features of metamodels by name.
#![tactic(auto)]

mod adding;
pub mod class_tables;
pub mod enum_tables;
pub mod feature_tables;
pub mod name_table;
pub mod place_tables;
pub mod place_trees;
