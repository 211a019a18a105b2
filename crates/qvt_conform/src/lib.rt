//! Conformance of models to their metamodels (EMOF 12), and the lower bounds of a store.
#![tactic(auto)]

mod asked;
mod breach;
pub mod conform;
mod containment;
mod contents;
pub mod fault;
mod items;
mod links;
pub mod low;
mod seen;
mod slots;
