//! Tests of the heads of transformations, and of the choice among their units. Nothing stands on this crate.
#![tactic(auto)]

#[cfg(test)]
mod tests;
