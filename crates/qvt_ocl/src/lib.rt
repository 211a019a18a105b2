//! The operations on values (OCL 2.4, 11.3 to 11.7): `apply`.
#![tactic(auto)]

pub mod apply;
pub mod as_made;
pub mod collections;
pub mod dispatch;
pub mod fault;
pub mod in_order;
pub mod kinds;
pub mod lent;
pub mod made;
pub mod operands;
pub mod ordered;
pub mod owned;
