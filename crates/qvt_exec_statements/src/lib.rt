//! Statements (QVT 1.3, 8.2.2) that end in no late resolve, each by the rule of its kind, over what stands inside it.
#![tactic(auto)]

pub mod assignments;
pub mod conditions;
pub mod loops;
pub mod targets;
mod types;
pub mod values;
