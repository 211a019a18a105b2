//! The names that a transformation's head declares, and the types, extents and literals that paths name by them.
#![tactic(auto)]

pub mod extents;
pub mod model_types;
pub mod models;
pub mod name_index;
pub mod paths;
pub mod told;

pub use qvt_metas::metas;
