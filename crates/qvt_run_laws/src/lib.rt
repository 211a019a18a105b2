//! Laws of whole runs: how the fuel bounds them, which records they leave, that late entries fit, and that no input is
//! changed. Each function does nothing: its contract is the law.
#![tactic(auto)]

pub mod entries;
pub mod fuel;
pub mod inputs;
pub mod records;
