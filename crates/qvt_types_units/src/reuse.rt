//! The reuse of mappings.

ghost use Rattle.std.specs.Prelude.{◌≡◌};
ghost use Rattle.qvt_types_units.specs.Reuse as reuse;

use crate::overrides::params_differ;
use crate::signature::{HeadClass, Signature};
use qvt_types_words::metas::Metas;

/// How a mapping is reused.
#[derive(Clone, Copy, Debug, PartialEq, Eq)]
pub enum Reuse {
    /// It is inherited or merged.
    Shared,
    /// It is a candidate of a dispatcher.
    Disjunct,
}

/// Whether the class does not conform to one that stands in the head of a reused mapping.
fn is_loose(metas: &Metas, class: HeadClass, head: HeadClass) -> bool
    ensures { result ≡ reuse.is_loose metas.now class head }
{
    match head {
        HeadClass::Missing => false,
        HeadClass::Unknown => false,
        HeadClass::Known(above) => match class {
            HeadClass::Missing => true,
            HeadClass::Unknown => false,
            HeadClass::Known(class) => !metas.descends(class, above),
        },
    }
}

/// Whether neither context is below the other, or one alone is there.
fn are_unrelated(metas: &Metas, one: HeadClass, other: HeadClass) -> bool
    ensures { result ≡ reuse.are_unrelated metas.now one other }
{
    match one {
        HeadClass::Unknown => false,
        HeadClass::Missing => match other {
            HeadClass::Missing => false,
            HeadClass::Unknown => false,
            HeadClass::Known(_) => true,
        },
        HeadClass::Known(one) => match other {
            HeadClass::Missing => true,
            HeadClass::Unknown => false,
            HeadClass::Known(other) => {
                !(metas.descends(one, other) || metas.descends(other, one))
            }
        },
    }
}

/// Whether a result does not conform to another: none conforms to none alone.
fn is_other_result(metas: &Metas, one: HeadClass, other: HeadClass) -> bool
    ensures { result ≡ reuse.is_other_result metas.now one other }
{
    match one {
        HeadClass::Unknown => false,
        HeadClass::Missing => match other {
            HeadClass::Missing => false,
            HeadClass::Unknown => false,
            HeadClass::Known(_) => true,
        },
        HeadClass::Known(one) => match other {
            HeadClass::Missing => true,
            HeadClass::Unknown => false,
            HeadClass::Known(other) => !metas.descends(one, other),
        },
    }
}

fn is_bad(metas: &Metas, how: Reuse, unit: &Signature, listed: &Signature) -> bool
    ensures { result ≡ reuse.is_bad metas.now how unit.now listed.now }
{
    match how {
        Reuse::Shared => {
            is_loose(metas, unit.context, listed.context)
                || is_loose(metas, unit.result, listed.result)
        }
        Reuse::Disjunct => {
            are_unrelated(metas, unit.context, listed.context)
                || is_other_result(metas, listed.result, unit.result)
        }
    }
}

/// Whether the mapping may not reuse the listed one: BadReuse.
#[tactic(auto, unfolding(crate::specs::Reuse::is_bad_reuse))]
pub fn is_bad_reuse(metas: &Metas, how: Reuse, unit: &Signature, listed: &Signature) -> bool
    ensures { result ≡ reuse.is_bad_reuse metas.now how unit.now listed.now }
{
    params_differ(unit.params.as_slice(), listed.params.as_slice())
        || is_bad(metas, how, unit, listed)
}
