//! What every crate of `qvto` stands on: places and numbers, lists and texts that contracts see as
//! plain lists, names, and the outside (files and the sink) as traits that count their faults.
#![tactic(auto)]

pub mod copied;
pub mod list_fault;
pub mod lists;
pub mod mem_files;
pub mod mem_sink;
pub mod names;
pub mod numbers;
pub mod outside;
pub mod real;
pub mod seq;
pub mod text;
