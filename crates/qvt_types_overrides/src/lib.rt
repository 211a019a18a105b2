//! Units that override others: which of them do not fit those above them.
#![tactic(auto)]

pub mod odd;
pub mod overrides;
pub mod ranked;
pub mod upper;
