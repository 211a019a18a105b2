//! How deep printed texts are nested.
#![tactic(auto)]

pub mod law;
