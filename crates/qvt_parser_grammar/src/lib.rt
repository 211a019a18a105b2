//! The calls that read names, types, words and signs of a transformation's text (QVT 1.3, 8.4).
#![tactic(auto)]

pub mod cursor;
pub mod names;
pub mod words;
