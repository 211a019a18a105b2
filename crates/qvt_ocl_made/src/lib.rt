//! Values as they are made: what calls make of such values is such a value, and a test for those of which that is not known.
#![tactic(auto)]

pub mod as_made;
pub mod law;
