//! The nodes of the tree that tokens are read as: how many there are, what names and texts they have,
//! where they stand (QVT 1.3, 8.4).
#![tactic(auto)]

pub mod law;
