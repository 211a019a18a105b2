//! The interpreter: phrases of a run with all that stands inside them, and calls of units, of which 100 may be open; a run of
//! `main` and its end.
#![tactic(auto)]

mod below;
mod inside;
mod knot;
mod late;
pub mod run;
mod stack;

pub use qvt_exec_answers::answering;
pub use qvt_exec_finish::{entries, finish, laws, stop};
