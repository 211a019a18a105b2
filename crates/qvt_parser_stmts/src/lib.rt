//! The calls that read statements and blocks (QVT 1.3, 8.2.2 and 8.4), and with them all that is
//! nested: expressions, and blocks inside each other.
#![tactic(auto)]

pub mod calls;
pub mod made;
pub mod nested;
pub mod statements;
pub mod turns;
