//! Tests of typing: for each refusal the smallest text that has it, and one beside it that is accepted; the programs of accepted
//! texts. Nothing stands on this crate.
#![tactic(auto)]

#[cfg(test)]
mod tests;
