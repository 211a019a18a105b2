//! The calls that read steps, operators and whole expressions (OCL 2.4, 7.4; QVT 1.3, 8.4): each is
//! generic in the calls that read what stands nested inside, and gives what the reader of its
//! production gives.
#![tactic(auto)]

pub mod chains;
pub mod made;
pub mod steps;
