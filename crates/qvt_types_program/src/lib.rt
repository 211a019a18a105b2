//! A transformation that typing accepts: its tree with the notes of its nodes, what its heads declare, and what a run asks of it.
#![tactic(auto)]

pub mod extents;
mod known;
pub mod program;
pub mod tables;

pub use qvt_types_groups::signature;
pub use qvt_types_heads::{calls, declarations, least, reading};
