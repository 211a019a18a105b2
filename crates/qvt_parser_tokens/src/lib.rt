//! The tokens of a transformation's text as the grammar reads them, and the limit on what stands open
//! in them.
#![tactic(auto)]

pub mod depth;
pub mod said;
pub mod text;
