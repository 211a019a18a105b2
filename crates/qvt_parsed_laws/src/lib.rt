//! The laws of a text that is read as a transformation (QVT 1.3, 8.4), and of one with a syntax fault.
#![tactic(auto)]

pub mod law;
