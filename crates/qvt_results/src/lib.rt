//! Steps that may fail, one after another: the value of one goes to the next, the first fault ends
//! them all. It has definitions alone.
#![tactic(auto)]
