//! The value of a plain expression and its cost, over a store and variables that are handed in.
#![tactic(auto)]

mod alone;
mod inside;
mod knot;
pub mod plain;
pub mod told;
pub mod vars;

pub use qvt_exec_exprs::exprs;
pub use qvt_program_exprs::table;
