//! What every store keeps through its changes, and the laws of that.
#![tactic(auto)]

pub mod law;
