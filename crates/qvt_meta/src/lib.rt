//! Metamodels: an EMOF subset, read, numbered and looked up.
#![tactic(auto)]

mod adding;
pub mod law;
pub mod meta;
mod own_names;
mod same_feature;

pub use qvt_metamodel::{copied, declared, fault, given, info};
pub use qvt_metas::metas;
