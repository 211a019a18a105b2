//! Tests of the trace of a run. Nothing stands on this crate.
#![tactic(auto)]

#[cfg(test)]
mod tests;
