//! Units that override others.

ghost use Rattle.std.specs.Prelude.{◌≡◌, ◌&&◌};
ghost use Rattle.qvt_types_units.specs.Overrides as overrides;

use crate::numbers::{is_helper, is_mapping};
use crate::signature::{HeadClass, Signature, UnitSort};
use qvt_types_data::ty::{Ty, same};
use qvt_types_words::metas::Metas;
use qvt_types_words::types::conforms;

/// Whether two types differ where both are known.
fn differ(one: &Option<Ty>, other: &Option<Ty>) -> bool
    ensures { result ≡ overrides.differ one.now other.now }
{
    match one {
        None => false,
        Some(one) => match other {
            None => false,
            Some(other) => !same(one, other),
        },
    }
}

/// Whether the types of parameters differ, or their number does.
pub fn params_differ(some: &[Option<Ty>], others: &[Option<Ty>]) -> bool
    ensures { result ≡ overrides.params_differ some.now others.now }
{
    if some.len() != others.len() {
        return true;
    }
    for (place, one) in some.iter().enumerate() {
        if differ(one, &others[place]) {
            return true;
        }
    }
    false
}

fn is_wider(metas: &Metas, one: &Option<Ty>, other: &Option<Ty>) -> bool
    ensures { result ≡ overrides.is_wider metas.now one.now other.now }
{
    match one {
        None => false,
        Some(one) => match other {
            None => false,
            Some(other) => !conforms(metas, one, other),
        },
    }
}

/// Whether one is a helper and the other a query.
fn are_unlike(one: UnitSort, other: UnitSort) -> bool
    ensures { result ≡ overrides.are_unlike one other }
{
    match (one, other) {
        (UnitSort::Helper, UnitSort::Query) => true,
        (UnitSort::Query, UnitSort::Helper) => true,
        _ => false,
    }
}

fn are_alike(one: UnitSort, other: UnitSort) -> bool
    ensures { result ≡ overrides.are_alike one other }
{
    (is_mapping(one) && is_mapping(other)) || (is_helper(one) && is_helper(other))
}

/// Whether the first context class is below the second, and another class.
pub fn is_strictly_below(metas: &Metas, one: HeadClass, other: HeadClass) -> bool
    ensures { result ≡ overrides.is_strictly_below metas.now one other }
{
    match one {
        HeadClass::Missing => false,
        HeadClass::Unknown => false,
        HeadClass::Known(class) => match other {
            HeadClass::Missing => false,
            HeadClass::Unknown => false,
            HeadClass::Known(above) => class.0 != above.0 && metas.descends(class, above),
        },
    }
}

/// Whether the first unit overrides the second.
#[tactic(auto, unfolding(crate::specs::Overrides::overrides))]
pub fn is_override(metas: &Metas, one: &Signature, other: &Signature) -> bool
    ensures { result ≡ overrides.overrides metas.now one.now other.now }
{
    are_alike(one.sort, other.sort)
        && one.name.as_str() == other.name.as_str()
        && is_strictly_below(metas, one.context, other.context)
}

/// Whether the first unit takes or answers other than the second asks, which it overrides.
#[tactic(auto, unfolding(crate::specs::Overrides::is_misfit))]
pub fn is_misfit(metas: &Metas, one: &Signature, other: &Signature) -> bool
    ensures { result ≡ overrides.is_misfit metas.now one.now other.now }
{
    params_differ(one.params.as_slice(), other.params.as_slice())
        || is_wider(metas, &one.answer, &other.answer)
        || are_unlike(one.sort, other.sort)
}

/// Whether the unit overrides one of these and does not fit it: BadOverride.
pub fn is_bad_override(metas: &Metas, units: &[Signature], unit: &Signature) -> bool
    ensures { result ≡ overrides.is_bad_override metas.now units.now unit.now }
{
    units.iter().any(|other| is_override(metas, unit, other) && is_misfit(metas, unit, other))
}
