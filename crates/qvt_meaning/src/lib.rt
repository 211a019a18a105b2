//! What a transformation means: definitions alone.
#![tactic(auto)]

pub use qvt_typing::{parts, signature};
