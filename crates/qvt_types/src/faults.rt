//! What is answered for a refusal.

ghost use Rattle.std.specs.Prelude.{◌≡◌};
ghost use Rattle.qvt_types.specs.Faults as faults;

use crate::fault::TypingFault;
use qvt_types_data::refusal::{RefusalKind, TypingRefusal};

/// The fault of a refusal.
pub fn fault_of(refusal: TypingRefusal) -> TypingFault
    ensures { result ≡ faults.fault_of refusal }
{
    let place = refusal.place;
    match refusal.kind {
        RefusalKind::UnknownMetamodel => TypingFault::UnknownMetamodel(place),
        RefusalKind::UnknownName => TypingFault::UnknownName(place),
        RefusalKind::UnknownType => TypingFault::UnknownType(place),
        RefusalKind::SameName => TypingFault::SameName(place),
        RefusalKind::Ambiguous => TypingFault::Ambiguous(place),
        RefusalKind::WrongType => TypingFault::WrongType(place),
        RefusalKind::WrongCount => TypingFault::WrongCount(place),
        RefusalKind::NotPure => TypingFault::NotPure(place),
        RefusalKind::LatePlace => TypingFault::LatePlace(place),
        RefusalKind::NotPlain => TypingFault::NotPlain(place),
        RefusalKind::ReuseCycle => TypingFault::ReuseCycle(place),
        RefusalKind::BadReuse => TypingFault::BadReuse(place),
        RefusalKind::BadOverride => TypingFault::BadOverride(place),
        RefusalKind::BadContext => TypingFault::BadContext(place),
        RefusalKind::BadTarget => TypingFault::BadTarget(place),
        RefusalKind::BadReturn => TypingFault::BadReturn(place),
        RefusalKind::BadExtent => TypingFault::BadExtent(place),
        RefusalKind::AbstractClass => TypingFault::AbstractClass(place),
        RefusalKind::ResultPlace => TypingFault::ResultPlace(place),
        RefusalKind::BadDisjunct => TypingFault::BadDisjunct(place),
        RefusalKind::ModelUse => TypingFault::ModelUse(place),
        RefusalKind::NoMain => TypingFault::NoMain(place),
    }
}
