//! Small programs, and what they come to by the definitions.
#![tactic(auto)]

pub mod worked;
