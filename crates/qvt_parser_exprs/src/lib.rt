//! The calls that read the parts of expressions (OCL 2.4, 7; QVT 1.3, 8.4), up to those without an
//! operator or a step: each is generic in the calls that read what stands nested inside, and gives what
//! the reader of its production gives.
#![tactic(auto)]

pub mod exprs;
pub mod inside;
pub mod leading;
pub mod made;
