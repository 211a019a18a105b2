//! What phrases of a program mean in a run, and what a phrase asks of those that stand inside it; calls of units as phrases meet
//! them: what stands behind a call or a resolve, the unit that is chosen for an object, calls for each item of a collection, and
//! what a unit begins with and gives back.
#![tactic(auto)]

pub mod choice;
pub mod each;
pub mod engine;
pub mod frames;
pub mod given;
mod mapped;
pub mod nested;
pub mod objects;
pub mod units;
mod values;

pub use qvt_exec_state::state;
pub use qvt_program_units::{callees, numbers, program};
