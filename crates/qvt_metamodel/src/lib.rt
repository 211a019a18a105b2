//! Metamodels as data, and what every layer above says of them.
#![tactic(auto)]

pub mod begin;
pub mod copied;
pub mod declared;
pub mod fault;
pub mod front;
pub mod given;
pub mod info;
pub mod lists;
pub mod numbering;
pub mod room;
pub mod row;
