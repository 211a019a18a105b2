//! What stands inside a phrase, and the walk of typing over steps and the lists of phrases, over that.
#![tactic(auto)]

pub mod arrows;
pub mod calls;
pub mod lists;
pub mod nested;
pub mod resolves;
pub mod steps;
