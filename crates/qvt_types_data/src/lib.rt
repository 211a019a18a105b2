//! The types of values (OCL 2.4, 7.4 and 11.2).
#![tactic(auto)]

pub mod boxed;
pub mod kinds;
pub mod note;
pub mod refusal;
pub mod ruling;
pub mod ty;
pub mod variable;
