//! The typed tree of a tree and the notes of its nodes (QVT 1.3, 8.2).
#![tactic(auto)]

pub mod joined;
mod units;
