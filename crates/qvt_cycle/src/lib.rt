//! Numbers that lead back to themselves, of a relation given by lists.
#![tactic(auto)]

mod classes;
pub mod counts;
pub mod cycles;
pub mod lists;
mod search;
