//! What typing knows where a node stands, and what names and calls mean there.
#![tactic(auto)]

pub mod aims;
pub mod calls;
pub mod context;
pub mod names;

pub use qvt_types_groups::telling;
pub use qvt_typing::parts;
