//! Tests of plain expressions by themselves: their values and costs, over variables that are handed in. Nothing stands on this
//! crate.
#![tactic(auto)]

#[cfg(test)]
mod tests;
