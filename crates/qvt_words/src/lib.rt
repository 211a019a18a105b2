//! The reserved words and the signs of a transformation's text, and how each is spelled (OCL 2.4, 7; QVT
//! 1.3, 8.4): one table for all that reads or writes such a text.
#![tactic(auto)]

pub mod class;
pub mod words;
