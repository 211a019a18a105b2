//! Objects with slots, opposites and containers, in numbered extents.
#![tactic(auto)]

pub mod limits;
pub mod store;

pub use qvt_slots::{
    extent as extent, fault as fault, features as features, metas as metas, op as op, put as put,
};
pub use qvt_store_laws::law as law;
