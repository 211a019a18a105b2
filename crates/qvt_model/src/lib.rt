//! Models from and to JSON.
#![tactic(auto)]

mod dangling;
pub mod data;
mod forms;
pub mod id_table;
mod items;
pub mod laws;
pub mod load;
mod numbers;
mod objects;
mod places;
pub mod read;
mod slots;
mod values;
pub mod write;
