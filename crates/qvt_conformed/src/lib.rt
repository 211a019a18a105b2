//! That a model without a fault can be loaded.
#![tactic(auto)]

pub mod laws;
