//! Laws of the slots that late assignments write. Each function does nothing: its contract is the law.
#![tactic(auto)]

pub mod laws;
