//! Languages and readers: what a grammar reads and as which value, the fronts of what it reads, and
//! readers that are proved to find exactly the one reading or the first place of a fault. It is
//! generic in the type of the tokens, and has definitions and lemmas alone.
#![tactic(auto)]
