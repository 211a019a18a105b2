//! How typing settles a node whose parts are judged.
#![tactic(auto)]

pub mod assignments;
pub mod heads;
pub mod leaves;
pub mod objects;
pub mod parts;
pub mod resolves;
pub mod settling;
pub mod statements;

pub use qvt_types_context::{aims, calls, context};
