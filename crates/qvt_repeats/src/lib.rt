//! Lists that repeat an item, by a test of when two items are the same. It is generic in the type of the
//! items, and has definitions and lemmas alone.
#![tactic(auto)]
