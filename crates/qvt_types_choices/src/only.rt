//! The single choice among units of a name, told without memory.

ghost use Rattle.std.specs.Prelude.{◌≡◌, ◌<◌, ◌&&◌, eqb, false, length, IsTrue};
ghost use Rattle.std.specs.List.{IsDistinct, list_any};
ghost use Rattle.qvt_types_units.specs.Choice as choice;
ghost use Rattle.qvt_types_choices.specs.ByClass as by_class;
ghost use Rattle.qvt_types_choices.specs.Only as only;
ghost use Rattle.qvt_types_choices.specs.Sets.{IsSetOf};
ghost use Rattle.qvt_types_choices.specs.Stuck.{is_stuck};
ghost use Rattle.qvt_metas.specs.Kept.{is_marked};
ghost use Rattle.qvt_metas.specs.Metamodels.{class_at};

use crate::candidates::lower;
use qvt_base::numbers::ClassNo;
use qvt_metas::row::{Row, is_marked};
use qvt_types_paths::metas::Metas;
use qvt_types_units::choice::{FoundUnit, context_at, is_below};
use qvt_types_units::overrides::is_strictly_below;
use qvt_types_units::signature::{HeadClass, Signature};

/// Whether the unit's context is the class or above it.
pub fn is_over(metas: &Metas, units: &[Signature], number: u32, class: ClassNo) -> bool
    ensures { result ≡ choice.is_context_above metas.now (choice.context_at units.now number) class.0 }
{
    is_below(metas, HeadClass::Known(class), context_at(units, number))
}

/// Whether the other is another unit, and not strictly above this one.
pub fn is_rival(metas: &Metas, units: &[Signature], number: u32, other: u32) -> bool
    ensures { result ≡ only.is_rival metas.now units.now number other }
{
    number != other
        && !is_strictly_below(metas, context_at(units, number), context_at(units, other))
}

/// Whether the other is such a rival that is above the class.
fn is_rival_over(
    metas: &Metas,
    units: &[Signature],
    number: u32,
    other: u32,
    class: ClassNo,
) -> bool
    ensures { result ≡ (only.is_rival metas.now units.now number other && choice.is_context_above metas.now (choice.context_at units.now other) class.0) }
{
    is_rival(metas, units, number, other) && is_over(metas, units, other, class)
}

/// Whether a rival of the unit is above the class.
fn is_disputed(
    metas: &Metas,
    units: &[Signature],
    group: &[u32],
    number: u32,
    class: ClassNo,
) -> bool
    ensures { result ≡ list_any (λ k. only.is_rival metas.now units.now number k && choice.is_context_above metas.now (choice.context_at units.now k) class.0) group.now }
{
    group
        .iter()
        .any(|other| is_rival_over(metas, units, number, *other, class))
}

/// Whether the unit is above the class and no rival of it is.
fn is_only(metas: &Metas, units: &[Signature], group: &[u32], number: u32, class: ClassNo) -> bool
    ensures { result ≡ only.is_only metas.now units.now group.now number class.0 }
{
    is_over(metas, units, number, class) && !is_disputed(metas, units, group, number, class)
}

/// Of a unit that may be there and this one the lower.
pub fn lower_of(metas: &Metas, units: &[Signature], one: Option<u32>, other: u32) -> u32
    ensures { result ≡ only.lower_of metas.now units.now one other }
{
    match one {
        None => other,
        Some(one) => lower(metas, units, one, other),
    }
}

/// The lowest of those that are above the class, where one is below each.
fn least_above(metas: &Metas, units: &[Signature], group: &[u32], class: ClassNo) -> Option<u32>
    ensures { result ≡ only.least_above metas.now units.now group.now class.0 }
{
    let mut least = None;
    for number in group {
        if is_over(metas, units, *number, class) {
            least = Some(lower_of(metas, units, least, *number));
        }
    }
    least
}

/// Whether the class is a concrete one that is not in this set.
fn is_told_single(metas: &Metas, stuck: &Row, class: ClassNo) -> bool
    ensures there { IsTrue result → class.0 < length metas.now.classes }
    ensures concrete { IsTrue result → (class_at metas.now class.0).is_abstract ≡ false }
    ensures unmarked { IsTrue result → is_marked stuck.now class.0 ≡ false }
{
    metas.are_well_formed();
    class.0 < metas.class_count() && !metas.is_abstract(class) && !is_marked(stuck, class.0)
}

/// The choice for the class, by the set of the classes without a single one. For a concrete class that is not in it the lowest unit
/// above is the choice; else the units are asked.
pub fn choice_by_stuck(
    metas: &Metas,
    units: &[Signature],
    group: &[u32],
    stuck: &Row,
    class: ClassNo,
) -> FoundUnit
    requires distinct { IsDistinct eqb group.now }
    requires stuck { IsSetOf metas.now (is_stuck metas.now units.now group.now) stuck.now }
    ensures { result ≡ by_class.choice_for metas.now units.now group.now class.0 }
{
    metas.are_well_formed();
    match least_above(metas, units, group, class) {
        None => FoundUnit::NoUnit,
        Some(number) => {
            if is_told_single(metas, stuck, class) {
                FoundUnit::Chosen(number)
            } else if is_only(metas, units, group, number, class) {
                FoundUnit::Chosen(number)
            } else {
                FoundUnit::Unclear
            }
        }
    }
}

/// The choice for the class, in time linear in the number of the units.
#[inline(never)]
pub fn choice_of(metas: &Metas, units: &[Signature], group: &[u32], class: ClassNo) -> FoundUnit
    requires { IsDistinct eqb group.now }
    ensures { result ≡ by_class.choice_for metas.now units.now group.now class.0 }
{
    metas.are_well_formed();
    match least_above(metas, units, group, class) {
        None => FoundUnit::NoUnit,
        Some(number) => {
            if is_only(metas, units, group, number, class) {
                FoundUnit::Chosen(number)
            } else {
                FoundUnit::Unclear
            }
        }
    }
}
