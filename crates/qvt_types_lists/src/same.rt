//! Units that no call could tell apart.

ghost use Rattle.std.specs.Prelude.{◌≡◌, ◌++◌, [], take, position, OnOk};
ghost use Rattle.std.specs.List.{list_any};
ghost use Rattle.qvt_types_groups.specs.Numbers as numbers;
ghost use Rattle.qvt_types_groups.specs.Units as units_told;
ghost use Rattle.qvt_types_lists.specs.Same as same_words;

use qvt_base::list_fault::ListFault;
use qvt_base::numbers::Place;
use qvt_types_data::refusal::RefusalKind;
use qvt_types_groups::signature::{HeadClass, Signature, UnitSort};
use qvt_types_groups::unit_names::UnitNames;
use qvt_types_paths::told::{RefusalList, tell_if};

/// The first unit of the name and context of this one.
fn first_called(units: &UnitNames, maps: bool, unit: &Signature) -> Option<u32>
    ensures { result ≡ position (same_words.is_same_called maps unit.now) units.now }
{
    let name = unit.name.as_str();
    match unit.context {
        HeadClass::Missing => units.free_unit(maps, name),
        HeadClass::Unknown => None,
        HeadClass::Known(class) => units.named(maps, class, name),
    }
}

/// The first constructor of the class and the number of parameters of this one.
fn first_constructor(units: &UnitNames, unit: &Signature) -> Option<u32>
    ensures { result ≡ position (same_words.is_same_constructor unit.now) units.now }
{
    match unit.context {
        HeadClass::Missing => None,
        HeadClass::Unknown => None,
        HeadClass::Known(class) => units.constructor_of(class, unit.params.len()),
    }
}

/// The first unit that no call could tell from this one.
fn first_same(units: &UnitNames, unit: &Signature) -> Option<u32>
    ensures { result ≡ position (units_told.are_same unit.now) units.now }
{
    match unit.sort {
        UnitSort::Class => None,
        UnitSort::Main => units.main(),
        UnitSort::Helper => first_called(units, false, unit),
        UnitSort::Query => first_called(units, false, unit),
        UnitSort::Constructor => first_constructor(units, unit),
        UnitSort::Mapping(_) => first_called(units, true, unit),
    }
}

/// Whether such a one stands among the first of the units.
fn stands_before(units: &UnitNames, number: u32, unit: &Signature) -> bool
    ensures { result ≡ list_any (units_told.are_same unit.now) (take number units.now) }
{
    match first_same(units, unit) {
        None => false,
        Some(first) => first < number,
    }
}

/// Tells which units an earlier one is the same as: SameName, at the unit.
pub fn tell_same(units: &UnitNames, log: &mut RefusalList) -> Result<(), ListFault>
    ensures { OnOk result (log.new ≡ log.old ++ units_told.same_told [] units.now) }
{
    let all = units.signatures();
    for number in 0..units.count() {
        let unit = &all[number as usize];
        let repeated = stands_before(units, number, unit);
        tell_if(log, repeated, RefusalKind::SameName, unit.place)?;
    }
    Ok(())
}

/// Tells that there is no `main`: NoMain, at the end.
pub fn tell_main(units: &UnitNames, end: Place, log: &mut RefusalList) -> Result<(), ListFault>
    ensures { OnOk result (log.new ≡ log.old ++ units_told.main_told units.now end) }
{
    let missing = units.main().is_none();
    tell_if(log, missing, RefusalKind::NoMain, end)?;
    Ok(())
}
