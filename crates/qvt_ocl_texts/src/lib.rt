//! Operations on Booleans, Integers and Strings (OCL 2.4, 11.5), and words on texts by characters.
#![tactic(auto)]

pub mod integers;
pub mod strings;
pub mod texts;
