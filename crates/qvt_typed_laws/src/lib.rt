//! Laws of typing: what is true of every transformation of which nothing is told.
#![tactic(auto)]

pub mod laws;
