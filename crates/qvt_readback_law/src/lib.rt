//! What is printed reads back (QVT 1.3, 8.4).
#![tactic(auto)]

pub mod law;
