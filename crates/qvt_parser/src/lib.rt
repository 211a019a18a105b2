//! The parser of a transformation's text (QVT 1.3, 8.4): from the text to the tree, or to the exact
//! place of its first fault.
#![tactic(auto)]

pub mod parse;

pub use qvt_parsed::fault;
