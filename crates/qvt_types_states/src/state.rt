//! The state of typing.

ghost use Rattle.std.specs.Prelude.{◌≡◌, []};

use crate::scope::Scope;
use qvt_base::seq::Seq;
use qvt_types_data::note::Note;
use qvt_types_data::refusal::TypingRefusal;
use std::alloc::Global;

/// What is in scope, the number of the next expression, and the refusals and notes so far.
pub struct TypingState {
    pub scope: Scope,
    pub next: u32,
    pub log: Seq<TypingRefusal>,
    /// One for each node that is judged, those of its parts before its own.
    pub notes: Seq<Note>,
}

impl Drop for TypingState {
    fn drop(self) {
        let TypingState {
            scope,
            next,
            log,
            notes,
        } = self;
    }
}

impl TypingState {
    /// Nothing is judged yet. It takes no memory.
    pub fn new(alloc: Global) -> TypingState
        ensures { result ≡ record { scope = record { named = []; sources = [] }; next = 0; log = []; notes = [] } }
    {
        TypingState {
            scope: Scope::new(alloc),
            next: 0,
            log: Seq::new(alloc),
            notes: Seq::new(alloc),
        }
    }
}
