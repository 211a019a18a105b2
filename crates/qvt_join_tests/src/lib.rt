//! Tests of typed trees that are joined of a tree and notes. Nothing stands on this crate.
#![tactic(auto)]

#[cfg(test)]
mod tests;
