//! What a text is read as (QVT 1.3, 8.4): which texts are a transformation, what is wrong with the
//! others, and both as a function of the text.
#![tactic(auto)]

pub mod fault;
pub mod law;
