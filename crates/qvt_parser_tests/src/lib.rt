//! Tests of texts that are read or have a fault, and of the places of their nodes (QVT 1.3, 8.4).
//! Nothing stands on this crate.
#![tactic(auto)]

#[cfg(test)]
mod tests;
