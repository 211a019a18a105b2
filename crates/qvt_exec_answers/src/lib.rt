//! What resolves answer over a trace, a store and the variables in scope: the candidates for which a condition is
//! true, as far as the fuel goes.
#![tactic(auto)]

pub mod answering;
pub mod answers;
pub mod questions;
pub mod room;
pub mod sifting;
pub mod weights;

pub use qvt_exec_plain::{exprs, vars};
