//! What is ruled of the steps of an expression by the types of their parts: calls of operations, iterators, tests and selections
//! by class, properties, resolves, and calls of units that are chosen (OCL 2.4, 7 and 11; QVT 1.3, 8.1.10 and 8.2).
#![tactic(auto)]

pub mod arrows;
pub mod calls;
pub mod classes;
pub mod heads;
pub mod iterators;
pub mod properties;
pub mod resolves;
pub mod units;
