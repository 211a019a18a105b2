//! What comes of the steps of a mapping call up to its record.

use qvt_base::numbers::Oid;
use qvt_base::seq::Seq;
use qvt_run_data::local::Local;

/// A result that the trace had, one with which the init section returned, or one with which the call goes
/// on.
#[derive(Clone, Copy)]
pub enum Made {
    Known(Option<Oid>),
    Ended(Option<Oid>),
    New(Option<Oid>),
}

/// That, with the variables after the init section.
pub struct Begun {
    pub made: Made,
    pub locals: Seq<Local>,
}

impl Drop for Begun {
    fn drop(self) {
        let Begun { made, locals } = self;
    }
}
