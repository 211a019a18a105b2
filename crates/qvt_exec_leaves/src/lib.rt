//! Single phrases of plain expressions that evaluate no phrase within: what they give of a store and the
//! variables in scope, and what they cost.
#![tactic(auto)]

pub mod applied;
pub mod dotted;
pub mod names;
pub mod nodes;
pub mod steps;

pub use qvt_exec_state::state;
pub use qvt_exec_words::sources;
