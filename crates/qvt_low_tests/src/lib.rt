//! Tests of the lowest crates: lists and texts, names, files and sinks, values, and the tokens of a
//! text. Nothing stands on this crate.
#![tactic(auto)]

#[cfg(test)]
mod tests;
