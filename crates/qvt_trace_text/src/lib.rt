//! The text of a trace's file (QVT 1.3, 8.1.12): the records, and the late entries with what they found.
#![tactic(auto)]

mod entries;
pub mod entry;
mod members;
mod paths;
mod records;
pub mod trace;
mod values;
mod words;
