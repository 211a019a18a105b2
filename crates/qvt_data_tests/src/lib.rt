//! Tests of metamodels, stores and models: tables of what classes, changes and loaded files do
//! together, over small examples. Nothing stands on this crate.
#![tactic(auto)]

#[cfg(test)]
mod tests;
