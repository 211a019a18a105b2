//! Blocks: statements one after another, each by its kind, and the assignments that end in a late resolve (QVT 1.3, 8.1.10 and 8.2.2).
#![tactic(auto)]

mod assigned;
mod late;
mod stack;
pub mod statements;

pub use qvt_exec_phrases::{engine, nested};
pub use qvt_exec_resolves::units;
pub use qvt_exec_statements::conditions;
