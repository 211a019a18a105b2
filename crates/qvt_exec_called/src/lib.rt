//! The units of a run that are called, by their callees. Mappings: `when`, disjunction, the record of an earlier call, the init
//! section, the result, the record, the mappings that are inherited, population and end, the mappings that are merged. Helpers,
//! queries and constructors with their bodies, and the body of `main`.
#![tactic(auto)]

pub mod bodies;
pub mod called;
pub mod calls;
mod first;
pub mod main_body;
mod once;
mod phrases;
mod reused;
pub mod routine_at;
pub mod routines;
mod sections;

pub use qvt_exec_blocks::statements;
pub use qvt_exec_candidates::{mapping, run};
