//! Questions that a run asks of a store: properties of objects, tests and selections by class, the objects of models, the types of
//! values, and whether an object can be made or a slot written. They change nothing.
#![tactic(auto)]

mod collections;
pub mod fits;
pub mod models;
pub mod objects;
pub mod property;
pub mod types;

pub use qvt_checks::conditions;
