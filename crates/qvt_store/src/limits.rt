//! The limit of a store.

/// How many objects a store holds at most.
pub const MOST_OBJECTS: usize = 1_000_000;
