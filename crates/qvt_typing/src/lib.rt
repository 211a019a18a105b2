//! What typing gives of a transformation, as definitions, and the plain data that they speak of.
#![tactic(auto)]

pub mod parts;

pub use qvt_types_names::sources;
pub use qvt_types_steps::{classes, iterators, properties, units};
pub use qvt_types_units::signature;
