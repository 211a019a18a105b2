//! Words on types: what conforms, joins, the operations by their names, what they answer, and what is ruled of a node by the
//! types of its parts (OCL 2.4, 7 and 11).
#![tactic(auto)]

pub mod answers;
pub mod operation_names;
pub mod rulings;
pub mod types;

pub use qvt_metas::metas;
pub use qvt_ocl_types::op;
