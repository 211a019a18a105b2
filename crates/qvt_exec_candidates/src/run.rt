use std::alloc::Global;

/// A run, as its units read it: how far its cost may go. The program stands behind the units.
#[derive(Clone, Copy)]
pub struct Run {
    pub alloc: Global,
    pub fuel: u64,
}
