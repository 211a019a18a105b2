//! The kinds of collection that operations ask for.

ghost use Rattle.std.specs.Prelude.{◌≡◌};
ghost use Rattle.qvt_ocl_words.specs.Collections.{is_in_order, is_once, same_kind, common_kind};

use qvt_value::value::Kind;

/// Whether collections of the kind have an order of their own.
pub fn is_in_order(kind: Kind) -> bool
    ensures { result ≡ is_in_order kind }
{
    matches!(kind, Kind::Sequence | Kind::OrderedSet)
}

/// Whether collections of the kind keep the first of equal items.
pub fn is_once(kind: Kind) -> bool
    ensures { result ≡ is_once kind }
{
    matches!(kind, Kind::Set | Kind::OrderedSet)
}

/// Whether the kinds are one.
pub fn same_kind(a: Kind, b: Kind) -> bool
    ensures { result ≡ same_kind a b }
{
    match a {
        Kind::Set => matches!(b, Kind::Set),
        Kind::Bag => matches!(b, Kind::Bag),
        Kind::Sequence => matches!(b, Kind::Sequence),
        Kind::OrderedSet => matches!(b, Kind::OrderedSet),
    }
}

/// The kind of an intersection: a Bag of Bags, else a Set.
pub fn common_kind(a: Kind, b: Kind) -> Option<Kind>
    ensures { result ≡ common_kind a b }
{
    match a {
        Kind::Set => match b {
            Kind::Set => Some(Kind::Set),
            Kind::Bag => Some(Kind::Set),
            _ => None,
        },
        Kind::Bag => match b {
            Kind::Set => Some(Kind::Set),
            Kind::Bag => Some(Kind::Bag),
            _ => None,
        },
        _ => None,
    }
}
