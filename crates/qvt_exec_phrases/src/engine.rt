use qvt_types_data::ty::Ty;
use std::alloc::Global;

/// What the phrases of a unit read: how far the cost may go, if it is limited; whether they are those of a
/// plain expression, which calls, makes and changes nothing; and the type that a `return` has to have.
#[derive(Clone, Copy)]
pub struct Engine<'a> {
    pub alloc: Global,
    pub limit: Option<u64>,
    pub is_plain: bool,
    pub answer: &'a Option<Ty>,
}
