//! What typing refuses.

use qvt_base::numbers::Place;

/// The refusals of typing, in the order of their numbers: of two at one place the earlier is told.
#[derive(Clone, Copy, Debug, PartialEq, Eq)]
pub enum RefusalKind {
    UnknownMetamodel,
    UnknownName,
    UnknownType,
    SameName,
    Ambiguous,
    WrongType,
    WrongCount,
    NotPure,
    LatePlace,
    NotPlain,
    ReuseCycle,
    BadReuse,
    BadOverride,
    BadContext,
    BadTarget,
    BadReturn,
    BadExtent,
    AbstractClass,
    ResultPlace,
    BadDisjunct,
    ModelUse,
    NoMain,
}

/// A refusal, with the place where it is told.
#[derive(Clone, Copy, Debug, PartialEq, Eq)]
pub struct TypingRefusal {
    pub kind: RefusalKind,
    pub place: Place,
}
