//! Slots of objects, what a change of one does to every other, and the cells that hold them.
#![tactic(auto)]

pub mod add;
pub mod cell;
pub mod commit;
pub mod draft;
pub mod extent;
pub mod fault;
pub mod features;
pub mod object_list;
pub mod op;
pub mod planned;
pub mod put;
pub mod seen;
pub mod values;
pub mod walk;

pub use qvt_metas::metas;
