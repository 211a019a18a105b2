//! The choice among the units of a reading.

ghost use Rattle.std.specs.Prelude.{◌≡◌, ◌++◌, IfOk, OnOk};
ghost use Rattle.std.specs.Str.{bytes_eq};
ghost use Rattle.qvt_meaning.specs.Program.{units_in};
ghost use Rattle.qvt_types_program.specs.Program.{program_view};
ghost use Rattle.qvt_types_units.specs.Choice as choice;
ghost use Rattle.qvt_program_units.specs.Chosen as chosen;

use crate::choices::{alone, chosen_among, chosen_like, units_like};
use crate::numbers::mapping_unit;
use qvt_base::list_fault::ListFault;
use qvt_base::numbers::{ClassNo, MappingNo};
use qvt_base::seq::Seq;
use qvt_types_data::note::{Reading, UnitNoList};
use qvt_types_program::program::Program;
use qvt_types_units::choice::single;
use std::alloc::Global;

fn are_same(some: &[u32], others: &[u32]) -> bool
    ensures { result ≡ bytes_eq some.now others.now }
{
    some == others
}

/// The choice among units, the first of which is this one, or among any others.
#[tactic(auto, using(crate::proofs::Told::same_list))]
fn chosen_by_first(
    alloc: Global,
    program: &Program,
    first: u32,
    numbers: &[u32],
    class: ClassNo,
) -> Result<Option<u32>, ListFault>
    ensures { IfOk result (λ n. n ≡ chosen.chosen_among (program_view program.now) numbers.now class.0) }
{
    if are_same(units_like(alloc, program, first), numbers) {
        chosen_like(alloc, program, first, class)
    } else {
        chosen_among(alloc, program, numbers, class)
    }
}

/// The choice among units. Where they are those of one name it takes the time to see that.
#[tactic(auto, unfolding(qvt_types_units::specs::Choice::chosen))]
fn chosen_unit(
    alloc: Global,
    program: &Program,
    numbers: &[u32],
    class: ClassNo,
) -> Result<Option<u32>, ListFault>
    ensures { IfOk result (λ n. n ≡ chosen.chosen_among (program_view program.now) numbers.now class.0) }
{
    match numbers {
        [] => Ok(None),
        [number] => Ok(alone(program, *number, class)),
        [first, ..] => chosen_by_first(alloc, program, *first, numbers, class),
    }
}

fn is_unit(number: u32, unit: Option<u32>) -> bool
    ensures { result ≡ chosen.is_unit number unit }
{
    match unit {
        None => false,
        Some(other) => other == number,
    }
}

/// Whether the mappings are these units, one after another.
fn are_units(program: &Program, mappings: &[MappingNo], numbers: &[u32]) -> bool
    ensures { result ≡ chosen.are_units (program_view program.now) mappings.now numbers.now }
{
    let mut units = numbers;
    for mapping in mappings {
        match units {
            [] => return false,
            [number, rest @ ..] => {
                if !is_unit(*number, mapping_unit(program, mapping.0)) {
                    return false;
                }
                units = rest;
            }
        }
    }
    units.len() == 0
}

/// Puts the number last, if it is there.
fn push_if(numbers: &mut UnitNoList, number: Option<u32>) -> Result<(), ListFault>
    ensures { OnOk result (numbers.new ≡ numbers.old ++ chosen.as_list number) }
{
    match number {
        None => Ok(()),
        Some(number) => numbers.push(number),
    }
}

/// The units that the mappings are.
#[tactic(auto, using(crate::proofs::Mappings::put_on))]
fn units_of(
    alloc: Global,
    program: &Program,
    mappings: &[MappingNo],
) -> Result<UnitNoList, ListFault>
    ensures { IfOk result (λ ns. ns ≡ chosen.units_of (program_view program.now) mappings.now) }
{
    let mut numbers = Seq::new(alloc);
    for mapping in mappings {
        push_if(&mut numbers, mapping_unit(program, mapping.0))?;
    }
    Ok(numbers)
}

/// The choice among any mappings.
fn chosen_of_all(
    alloc: Global,
    program: &Program,
    mappings: &[MappingNo],
    class: ClassNo,
) -> Result<Option<u32>, ListFault>
    ensures { IfOk result (λ n. n ≡ chosen.chosen_among (program_view program.now) (chosen.units_of (program_view program.now) mappings.now) class.0) }
{
    let numbers = units_of(alloc, program, mappings)?;
    chosen_among(alloc, program, numbers.as_slice(), class)
}

/// The choice among mappings, the first of which is this unit, or among any others.
#[tactic(auto, using(crate::proofs::Mappings::units_are))]
fn chosen_with(
    alloc: Global,
    program: &Program,
    first: u32,
    mappings: &[MappingNo],
    class: ClassNo,
) -> Result<Option<u32>, ListFault>
    ensures { IfOk result (λ n. n ≡ chosen.chosen_among (program_view program.now) (chosen.units_of (program_view program.now) mappings.now) class.0) }
{
    if are_units(program, mappings, units_like(alloc, program, first)) {
        chosen_like(alloc, program, first, class)
    } else {
        chosen_of_all(alloc, program, mappings, class)
    }
}

/// The choice where there is one mapping.
#[tactic(auto, unfolding(qvt_types_units::specs::Choice::chosen))]
fn one_mapping(program: &Program, unit: Option<u32>, class: ClassNo) -> Option<u32>
    ensures { result ≡ chosen.chosen_among (program_view program.now) (chosen.as_list unit) class.0 }
{
    match unit {
        None => None,
        Some(number) => alone(program, number, class),
    }
}

/// The choice among mappings. Where they are those of one name it takes the time to see that.
#[tactic(auto, using(crate::proofs::Mappings::one_unit), unfolding(qvt_types_units::specs::Choice::chosen))]
fn chosen_mapping(
    alloc: Global,
    program: &Program,
    mappings: &[MappingNo],
    class: ClassNo,
) -> Result<Option<u32>, ListFault>
    ensures { IfOk result (λ n. n ≡ chosen.chosen_among (program_view program.now) (chosen.units_of (program_view program.now) mappings.now) class.0) }
{
    match mappings {
        [] => Ok(None),
        [mapping] => Ok(one_mapping(program, mapping_unit(program, mapping.0), class)),
        [first, ..] => match mapping_unit(program, first.0) {
            None => chosen_of_all(alloc, program, mappings, class),
            Some(unit) => chosen_with(alloc, program, unit, mappings, class),
        },
    }
}

/// The unit that is chosen among those of a reading for objects of the class.
#[tactic(auto, unfolding(qvt_types_units::specs::Choice::chosen))]
pub fn chosen_in(
    alloc: Global,
    program: &Program,
    reading: &Reading,
    class: ClassNo,
) -> Result<Option<u32>, ListFault>
    ensures { IfOk result (λ n. n ≡ chosen.chosen_among (program_view program.now) (units_in (program_view program.now) reading.now) class.0) }
{
    match reading {
        Reading::Units(numbers) => chosen_unit(alloc, program, numbers.as_slice(), class),
        Reading::Mappings(mappings) => {
            chosen_mapping(alloc, program, mappings.as_slice(), class)
        }
        _ => Ok(None),
    }
}

/// The only unit that the mappings are.
fn only_mapping(program: &Program, mappings: &[MappingNo]) -> Option<u32>
    ensures { result ≡ choice.single (chosen.units_of (program_view program.now) mappings.now) }
{
    let mut only = None;
    for mapping in mappings {
        if let Some(number) = mapping_unit(program, mapping.0) {
            if only.is_some() {
                return None;
            }
            only = Some(number);
        }
    }
    only
}

/// The only unit of a reading.
pub fn only_in(program: &Program, reading: &Reading) -> Option<u32>
    ensures { result ≡ choice.single (units_in (program_view program.now) reading.now) }
{
    match reading {
        Reading::Units(numbers) => single(numbers.as_slice()),
        Reading::Mappings(mappings) => only_mapping(program, mappings.as_slice()),
        _ => None,
    }
}
