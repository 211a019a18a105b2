//! The conditions of the store's calls as tests at run time, for those who read what they give the
//! store from outside.
#![tactic(auto)]

pub mod conditions;

pub use qvt_store::store;
