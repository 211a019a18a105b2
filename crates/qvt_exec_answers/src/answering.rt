use qvt_exec_plain::table::Expressions;
use std::alloc::Global;

/// What the units of a run and the answers of resolves read: the expressions of the program, in which a condition
/// is found by its number, and how far the cost may go.
#[derive(Clone, Copy)]
pub struct Answering<'e, 'a> {
    pub alloc: Global,
    pub expressions: &'e Expressions<'a>,
    pub fuel: u64,
}
