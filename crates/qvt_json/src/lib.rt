//! JSON values: looking into them, the form that a value is to have, and what is written reads back.
#![tactic(auto)]

pub mod leaves;
pub mod shape;
pub mod value;
pub mod written;
