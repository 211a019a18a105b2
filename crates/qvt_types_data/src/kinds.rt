//! The kinds of collection, as words of a text and as kinds of values.

ghost use Rattle.std.specs.Prelude.{◌≡◌, ◌==◌};
ghost use Rattle.qvt_types_data.specs.Term.{kind_of};
ghost use Rattle.qvt_value.specs.Order.{kind_rank};

use qvt_tree_types::words::CollKind;
use qvt_value::value::Kind;

/// The kind that the word stands for.
pub fn kind_of(word: CollKind) -> Kind
    ensures { result ≡ kind_of word }
{
    match word {
        CollKind::Set => Kind::Set,
        CollKind::Bag => Kind::Bag,
        CollKind::Sequence => Kind::Sequence,
        CollKind::OrderedSet => Kind::OrderedSet,
    }
}

/// The word that stands for the kind.
pub fn word_of(kind: Kind) -> CollKind
    ensures { kind_of result ≡ kind }
{
    match kind {
        Kind::Set => CollKind::Set,
        Kind::Bag => CollKind::Bag,
        Kind::Sequence => CollKind::Sequence,
        Kind::OrderedSet => CollKind::OrderedSet,
    }
}

/// Whether the two words stand for one kind.
pub fn same_kind(one: CollKind, other: CollKind) -> bool
    ensures { result ≡ (kind_rank (kind_of one) == kind_rank (kind_of other)) }
{
    match (one, other) {
        (CollKind::Set, CollKind::Set) => true,
        (CollKind::Bag, CollKind::Bag) => true,
        (CollKind::Sequence, CollKind::Sequence) => true,
        (CollKind::OrderedSet, CollKind::OrderedSet) => true,
        _ => false,
    }
}
