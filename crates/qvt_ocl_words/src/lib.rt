//! The operations on values (OCL 2.4, 11.3 to 11.7): their names, and what each gives.
#![tactic(auto)]

pub mod numbers;
pub mod op;
