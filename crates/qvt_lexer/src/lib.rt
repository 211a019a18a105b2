//! The tokens of a transformation's text, one call after the other. Nothing here takes memory: each
//! token's text is a slice of the source.
#![tactic(auto)]

mod chars;
mod cursor;
pub mod law;
pub mod lexer;
pub mod literals;
mod scan;
pub mod token;
