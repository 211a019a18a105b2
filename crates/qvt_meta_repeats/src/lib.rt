//! Which features of classes have a name that an earlier feature of their class has.
#![tactic(auto)]

pub mod line_flags;
pub mod repeats;
