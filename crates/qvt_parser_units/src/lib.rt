//! The calls that read the units of a transformation (QVT 1.3, 8.2.1 and 8.4) and the whole of it, from
//! its tokens.
#![tactic(auto)]

pub mod clauses;
pub mod units;
