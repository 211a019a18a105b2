//! Words on lists of values: equal items, look-ups and counts by hash, what is kept of a list and of
//! two, its innermost items, its sum, its least and greatest item.
#![tactic(auto)]

pub mod best;
pub mod counts;
pub mod flat;
pub mod items;
pub mod lookup;
pub mod once;
pub mod total;
