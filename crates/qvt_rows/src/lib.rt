//! Sets of numbers as rows of bits, and for each class the set of itself and the classes below it.
#![tactic(auto)]

pub mod below;
pub mod sets;
