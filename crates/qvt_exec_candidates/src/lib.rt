//! What the steps of a mapping call read and make, up to its sections: the mapping by its number, the key of a call and its record, the
//! variables that it begins with, `when` and the candidates of a disjunction, the objects of its result.
#![tactic(auto)]

pub mod begun;
pub mod candidates;
mod conditions;
pub mod faults;
pub mod frames;
pub mod keys;
pub mod mapping;
pub mod results;
pub mod run;
