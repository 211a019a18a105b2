//! The language as the rows of its EBNF (QVT 1.3, 8.4), and the laws that they are what the parser's
//! productions read, and look at no place.
#![tactic(auto)]

pub mod law;
