//! The types of operations: for each sort of source what an operation takes and what it answers, and the law that
//! operands which fit these have an answer that fits.
#![tactic(auto)]

pub mod law;
pub mod signature;
pub mod table;

pub use qvt_ocl_words::op;
