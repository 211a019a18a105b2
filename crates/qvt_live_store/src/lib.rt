//! The store of a run, which is sound at every moment; and a store that is held, or lent to be read.
#![tactic(auto)]

pub mod held;
pub mod live;

pub use qvt_store::store;
