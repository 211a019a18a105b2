//! What the words of a command line come to over the bytes that the files hold, and the laws of what is written.
#![tactic(auto)]

pub mod laws;
