//! The refusal that is told of several.

ghost use Rattle.std.specs.Prelude.{◌≡◌};
ghost use Rattle.qvt_types_context.specs.Accepts as accepts;
ghost use Rattle.qvt_types_heads.specs.Least.{LeastIsLeast, NoneOfNone};

use qvt_types_data::refusal::{RefusalKind, TypingRefusal};

fn rank(kind: RefusalKind) -> u8
    ensures { result ≡ accepts.rank kind }
{
    match kind {
        RefusalKind::UnknownMetamodel => 1,
        RefusalKind::UnknownName => 2,
        RefusalKind::UnknownType => 3,
        RefusalKind::SameName => 4,
        RefusalKind::Ambiguous => 5,
        RefusalKind::WrongType => 6,
        RefusalKind::WrongCount => 7,
        RefusalKind::NotPure => 8,
        RefusalKind::LatePlace => 9,
        RefusalKind::NotPlain => 10,
        RefusalKind::ReuseCycle => 11,
        RefusalKind::BadReuse => 12,
        RefusalKind::BadOverride => 13,
        RefusalKind::BadContext => 14,
        RefusalKind::BadTarget => 15,
        RefusalKind::BadReturn => 16,
        RefusalKind::BadExtent => 17,
        RefusalKind::AbstractClass => 18,
        RefusalKind::ResultPlace => 19,
        RefusalKind::BadDisjunct => 20,
        RefusalKind::ModelUse => 21,
        RefusalKind::NoMain => 22,
    }
}

/// Whether the first stands before the second in the text, or at the same place and before it in the order of the refusals.
fn comes_before(one: TypingRefusal, other: TypingRefusal) -> bool
    ensures { result ≡ accepts.comes_before one other }
{
    one.place.offset < other.place.offset
        || (one.place.offset == other.place.offset && rank(one.kind) < rank(other.kind))
}

fn sooner(first: Option<TypingRefusal>, next: TypingRefusal) -> TypingRefusal
    ensures { result ≡ accepts.sooner first next }
{
    match first {
        None => next,
        Some(first) => if comes_before(next, first) {
            next
        } else {
            first
        },
    }
}

/// The first refusal before which no other comes.
pub fn least(refusals: &[TypingRefusal]) -> Option<TypingRefusal>
    ensures { result ≡ accepts.least refusals.now }
{
    let mut first: Option<TypingRefusal> = None;
    for refusal in refusals {
        first = Some(sooner(first, *refusal));
    }
    first
}

/// A law: what `least` gives is one of the refusals, none of them comes before it, and it is the first such.
pub fn least_is_least()
    ensures some { LeastIsLeast }
    ensures none { NoneOfNone }
{}
