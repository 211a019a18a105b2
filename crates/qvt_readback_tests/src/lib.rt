//! Tests of texts that are printed and read again, and of the shapes of their trees (QVT 1.3, 8.4).
//! Nothing stands on this crate.
#![tactic(auto)]

#[cfg(test)]
mod tests;
