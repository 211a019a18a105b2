//! The units of a transformation by their names, and the choice among those of a name.
#![tactic(auto)]

pub mod class_keys;
pub mod class_table;
pub mod number_lists;
pub mod unit_lists;
pub mod unit_names;
pub mod units;

pub use qvt_types_choices::class_choices;
pub use qvt_types_paths::{metas, model_types, models, paths};
pub use qvt_types_units::{
    choice, classes, numbers, overrides, reuse, signature, signatures, telling,
};
