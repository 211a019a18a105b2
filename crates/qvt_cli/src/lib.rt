//! The top call: the words of a command line, the files and the sink, and the status that is answered.
#![tactic(auto)]

pub mod ends;
mod entries;
pub mod laws;
pub mod program;
pub mod run;
pub mod top;
pub mod words;
pub mod work;
