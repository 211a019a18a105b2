//! What is told of the units of a name at each class and above it: by few of them, which ask of those that override them all that the
//! others ask, or by a list.
#![tactic(auto)]

pub mod above;
pub mod asks;
pub mod bounds;
pub mod covers;
pub mod gathered;
pub mod own;
pub mod shapes;
pub mod table;
