//! The heads of a transformation: what they declare, and what is told of them.
#![tactic(auto)]

pub mod declarations;
pub mod least;
pub mod reading;
pub mod telling;

pub use qvt_types_context::{calls, context};
pub use qvt_types_lists::traced;
