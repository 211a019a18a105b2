//! The rules of a run over what the parts of a phrase do: definitions alone.
#![tactic(auto)]

pub use qvt_run_data::{exit, fault, keyed, late, local, questions, record};
pub use qvt_types_steps::classes;
