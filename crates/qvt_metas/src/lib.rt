//! Numbered metamodels, and the look-ups in them.
#![tactic(auto)]

pub mod extending;
mod joining;
pub mod meta;
pub mod metas;
pub mod numbered;

pub use qvt_meta_names::name_table;
pub use qvt_meta_tables::{number_set, order, tables};
pub use qvt_metamodel::{fault, given, info, numbering, row};
