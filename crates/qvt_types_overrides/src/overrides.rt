//! What is told of units that override others.

ghost use Rattle.std.specs.Prelude.{◌≡◌, ◌++◌, ◌&&◌, true, false, ℕ, List, length, nat_lt, OnOk};
ghost use Rattle.std.specs.List.{list_any, list_all};
ghost use Rattle.qvt_types_groups.specs.Numbers.{unit_at};
ghost use Rattle.qvt_types_groups.specs.Overrides as overrides;
ghost use Rattle.qvt_types_groups.specs.Units as units_told;
ghost use Rattle.qvt_types_overrides.specs.Odd as odd_words;
ghost use Rattle.qvt_types_overrides.specs.Clashes as clash_words;
ghost use Rattle.qvt_types_overrides.specs.Ranked.{AreRanked};

use crate::odd::UnitsByName;
use crate::ranked::{Ranked, lists_under, rank_by_name, told_at};
use crate::upper::supers_of;
use qvt_base::list_fault::ListFault;
use qvt_base::seq::Seq;
use qvt_types_above::above::{Above, list_at};
use qvt_types_data::refusal::RefusalKind;
use qvt_types_groups::overrides::{is_misfit, is_override, is_strictly_below};
use qvt_types_groups::signature::{Signature, UnitSort};
use qvt_types_laws::laws::same_means_equal;
use qvt_types_paths::metas::Metas;
use qvt_types_paths::told::{RefusalList, tell_if};
use std::alloc::Global;

/// Whether the unit does not fit the one with this number, which is above it.
fn clashes_at(metas: &Metas, units: &[Signature], unit: &Signature, number: u32) -> bool
    ensures { result ≡ odd_words.clashes_at metas.now units.now unit.now number }
{
    let at = number as usize;
    if at < units.len() {
        let other = &units[at];
        is_strictly_below(metas, unit.context, other.context) && is_misfit(metas, unit, other)
    } else {
        false
    }
}

fn clashes_with(metas: &Metas, units: &[Signature], unit: &Signature, numbers: &[u32]) -> bool
    ensures { result ≡ list_any (odd_words.clashes_at metas.now units.now unit.now) numbers.now }
{
    numbers
        .iter()
        .any(|number| clashes_at(metas, units, unit, *number))
}

fn misfits_at(metas: &Metas, units: &[Signature], unit: &Signature, number: u32) -> bool
    ensures { result ≡ (nat_lt number (length units.now) && overrides.is_misfit metas.now unit.now (unit_at units.now number)) }
{
    let at = number as usize;
    at < units.len() && is_misfit(metas, unit, &units[at])
}

/// Whether the unit does not fit the first of these, which may be anywhere.
fn misfits_first(metas: &Metas, units: &[Signature], group: &[u32], unit: &Signature) -> bool
    ensures { result ≡ odd_words.misfits_first metas.now units.now group.now unit.now }
{
    match group {
        [] => false,
        [first, ..] => misfits_at(metas, units, unit, *first),
    }
}

/// Whether the unit does not fit one of its name that is above it. Those of classes that no other is below are not looked at, and where
/// all of the name are alike and it fits the first, none is.
fn clashes_among(metas: &Metas, units: &[Signature], named: &UnitsByName, unit: &Signature) -> bool
    ensures { result ≡ odd_words.clashes_among metas.now units.now named.now unit.now }
{
    let name = unit.name.as_str();
    let first = named.all.find(name);
    clashes_with(metas, units, unit, named.odd.find(name))
        || (misfits_first(metas, units, first, unit)
            && clashes_with(metas, units, unit, named.upper.find(name)))
}

/// Whether the unit fits the one with this number.
fn fits_at(metas: &Metas, units: &[Signature], unit: &Signature, number: u32) -> bool
    ensures { result ≡ clash_words.fits_at metas.now units.now unit.now number }
{
    let at = number as usize;
    at < units.len() && !is_misfit(metas, unit, &units[at])
}

fn fits_each(metas: &Metas, units: &[Signature], unit: &Signature, numbers: &[u32]) -> bool
    ensures { result ≡ list_all (clash_words.fits_at metas.now units.now unit.now) numbers.now }
{
    numbers
        .iter()
        .all(|number| fits_at(metas, units, unit, *number))
}

/// Whether the unit fits those by which it is told what is asked.
fn fits_told(
    metas: &Metas,
    units: &[Signature],
    lists: &[Seq<u32>],
    unit: &Signature,
    told: Above,
) -> bool
    ensures { result ≡ clash_words.fits_told metas.now units.now lists.now unit.now told }
{
    match told {
        Above::Untold => false,
        Above::Nothing => true,
        Above::Least(least) => fits_at(metas, units, unit, least),
        Above::Both(first, second) => {
            fits_at(metas, units, unit, first) && fits_at(metas, units, unit, second)
        }
        Above::Listed(place) => fits_each(metas, units, unit, list_at(lists, place)),
    }
}

/// Whether the unit overrides the one with this number and does not fit it.
fn is_bad_at(metas: &Metas, units: &[Signature], unit: &Signature, number: u32) -> bool
    ensures { result ≡ clash_words.is_bad_at metas.now units.now unit.now number }
{
    let at = number as usize;
    if at < units.len() {
        let other = &units[at];
        is_override(metas, unit, other) && is_misfit(metas, unit, other)
    } else {
        false
    }
}

fn is_bad_at_one(metas: &Metas, units: &[Signature], unit: &Signature, numbers: &[u32]) -> bool
    ensures { result ≡ list_any (clash_words.is_bad_at metas.now units.now unit.now) numbers.now }
{
    numbers
        .iter()
        .any(|number| is_bad_at(metas, units, unit, *number))
}

/// The same of one of those by which it is told what is asked.
fn is_bad_by(
    metas: &Metas,
    units: &[Signature],
    lists: &[Seq<u32>],
    unit: &Signature,
    told: Above,
) -> bool
    ensures { result ≡ clash_words.is_bad_by metas.now units.now lists.now unit.now told }
{
    match told {
        Above::Untold => false,
        Above::Nothing => false,
        Above::Least(least) => is_bad_at(metas, units, unit, least),
        Above::Both(first, second) => {
            is_bad_at(metas, units, unit, first) || is_bad_at(metas, units, unit, second)
        }
        Above::Listed(place) => is_bad_at_one(metas, units, unit, list_at(lists, place)),
    }
}

/// Whether the unit does not fit one of its name that is above it, where this is told of its class and those above it. All of the name
/// are asked where it does not fit what is told, and that is nothing that it overrides.
fn clashes_by(
    metas: &Metas,
    units: &[Signature],
    named: &UnitsByName,
    lists: &[Seq<u32>],
    unit: &Signature,
    told: Above,
) -> bool
    ensures { result ≡ clash_words.clashes_by metas.now units.now named.now lists.now unit.now told }
{
    !fits_told(metas, units, lists, unit, told)
        && (is_bad_by(metas, units, lists, unit, told) || clashes_among(metas, units, named, unit))
}

/// Whether the unit does not fit one of its name that is above it.
fn clashes(metas: &Metas, units: &[Signature], ranked: &Ranked, unit: &Signature) -> bool
    ensures { result ≡ clash_words.clashes_ranked metas.now units.now ranked.now unit.now }
{
    let place = ranked.named.all.place(unit.name.as_str());
    let told = told_at(ranked.tables.as_slice(), place, unit.context);
    let lists = lists_under(ranked.tables.as_slice(), place);
    clashes_by(metas, units, &ranked.named, lists, unit, told)
}

/// Whether the unit overrides another and does not fit it: BadOverride.
fn is_bad(
    metas: &Metas,
    units: &[Signature],
    mappings: &Ranked,
    helpers: &Ranked,
    unit: &Signature,
) -> bool
    requires mappings { AreRanked metas.now true units.now mappings.now }
    requires helpers { AreRanked metas.now false units.now helpers.now }
    ensures { result ≡ overrides.is_bad_override metas.now units.now unit.now }
{
    same_means_equal();
    metas.are_well_formed();
    metas.ancestors_are_least();
    match unit.sort {
        UnitSort::Class => false,
        UnitSort::Main => false,
        UnitSort::Helper => clashes(metas, units, helpers, unit),
        UnitSort::Query => clashes(metas, units, helpers, unit),
        UnitSort::Constructor => false,
        UnitSort::Mapping(_) => clashes(metas, units, mappings, unit),
    }
}

/// Tells which units override others and do not fit them: BadOverride, at the unit. It is refused as out of memory where the numbers
/// of the units do not fit 32 bits.
pub fn tell_overrides(
    alloc: Global,
    metas: &Metas,
    units: &[Signature],
    log: &mut RefusalList,
) -> Result<(), ListFault>
    ensures { OnOk result (log.new ≡ log.old ++ units_told.overrides_told metas.now units.now units.now) }
{
    let supers = supers_of(alloc, metas.class_infos())?;
    let mappings = rank_by_name(alloc, metas, &supers, true, units)?;
    let helpers = rank_by_name(alloc, metas, &supers, false, units)?;
    for unit in units {
        let bad = is_bad(metas, units, &mappings, &helpers, unit);
        tell_if(log, bad, RefusalKind::BadOverride, unit.place)?;
    }
    Ok(())
}
