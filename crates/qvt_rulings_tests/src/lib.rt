//! Tests of questions on types: of operations, of steps, and of names. Nothing stands on this crate.
#![tactic(auto)]

#[cfg(test)]
mod tests;
