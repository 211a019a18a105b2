//! Tests of sets of numbers as rows of bits and of the lists of features that metamodels keep, with
//! ample memory. Nothing stands on this crate.
#![tactic(auto)]

#[cfg(test)]
mod tests;
