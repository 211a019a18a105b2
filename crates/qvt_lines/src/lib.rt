//! Lines of the report that the meaning of a program and the outcome of a command both tell. It has
//! definitions alone.
#![tactic(auto)]
