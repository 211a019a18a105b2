//! Whether classes that are declared beside metamodels can come after them.
#![tactic(auto)]

pub mod given;
mod live;
mod loose;
mod named;
pub mod room;
