//! The intermediate classes of a transformation: what they declare, and the metamodels with them.
#![tactic(auto)]

pub mod classes;
pub mod cycles;
pub mod declared;
pub mod keyed;
pub mod numbered;
pub mod reading;
pub mod shapes;
pub mod telling;

pub use qvt_types_paths::{extents, model_types, models, paths, told};
