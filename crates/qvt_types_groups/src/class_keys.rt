//! The classes and numbers that tell units.

ghost use Rattle.std.specs.Prelude.{◌≡◌, map, IfOk};
ghost use Rattle.qvt_types_groups.specs.Keys as keys;

use crate::class_table::ClassKey;
use crate::number_lists::NumberLists;
use qvt_base::list_fault::ListFault;
use qvt_base::seq::Seq;
use qvt_types_units::numbers::{is_constructor, is_helper, is_mapping};
use qvt_types_units::signature::{HeadClass, Signature, UnitSort};
use std::alloc::Global;

/// Whether a call looks among units of this sort: mappings, or helpers and queries.
pub fn is_called(maps: bool, sort: UnitSort) -> bool
    ensures { result ≡ is_called maps sort }
{
    if maps {
        is_mapping(sort)
    } else {
        is_helper(sort)
    }
}

ghost use Rattle.qvt_types_units.specs.Numbers.{is_called};

fn key_in(context: HeadClass, number: Option<usize>) -> Option<ClassKey>
    ensures { result ≡ keys.key_in context number }
{
    match context {
        HeadClass::Missing => None,
        HeadClass::Unknown => None,
        HeadClass::Known(class) => match number {
            None => None,
            Some(number) => Some(ClassKey { class, number }),
        },
    }
}

fn name_number(names: &NumberLists, name: &str) -> Option<usize>
    ensures { result ≡ position (bytes_eq name.now) names.now.names }
{
    match names.place(name) {
        None => None,
        Some(place) => Some(place as usize),
    }
}

ghost use Rattle.std.specs.Prelude.{position};
ghost use Rattle.std.specs.Str.{bytes_eq};

fn named_key(maps: bool, names: &NumberLists, unit: &Signature) -> Option<ClassKey>
    ensures { result ≡ keys.named_key maps names.now.names unit.now }
{
    if is_called(maps, unit.sort) {
        key_in(unit.context, name_number(names, unit.name.as_str()))
    } else {
        None
    }
}

/// For each unit its context and the number of its name.
pub fn named_keys(
    alloc: Global,
    maps: bool,
    names: &NumberLists,
    units: &[Signature],
) -> Result<Seq<Option<ClassKey>>, ListFault>
    ensures { IfOk result (λ ks. ks ≡ map (keys.named_key maps names.now.names) units.now) }
{
    let mut all = Seq::with_room(alloc, units.len())?;
    for unit in units {
        all.push(named_key(maps, names, unit))?;
    }
    Ok(all)
}

fn constructor_key(unit: &Signature) -> Option<ClassKey>
    ensures { result ≡ keys.constructor_key unit.now }
{
    if is_constructor(unit.sort) {
        key_in(unit.context, Some(unit.params.len()))
    } else {
        None
    }
}

/// For each unit its class and the number of its parameters, where it is a constructor.
pub fn constructor_keys(
    alloc: Global,
    units: &[Signature],
) -> Result<Seq<Option<ClassKey>>, ListFault>
    ensures { IfOk result (λ ks. ks ≡ map keys.constructor_key units.now) }
{
    let mut all = Seq::with_room(alloc, units.len())?;
    for unit in units {
        all.push(constructor_key(unit))?;
    }
    Ok(all)
}
