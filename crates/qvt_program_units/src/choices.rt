//! The choice of a unit for objects of a class. What typing has found for the units of a name tells it in constant time.

ghost use Rattle.std.specs.Prelude.{◌≡◌, [], ◌∷◌, IfOk};
ghost use Rattle.qvt_types_program.specs.Program.{program_view};
ghost use Rattle.qvt_types_units.specs.Choice as choice;
ghost use Rattle.qvt_program_units.specs.Chosen as chosen;

use crate::numbers::{no_unit, signature_of};
use qvt_base::list_fault::ListFault;
use qvt_base::numbers::ClassNo;
use qvt_metas::metas::Metas;
use qvt_types_program::program::Program;
use qvt_types_units::choice::{FoundUnit, chosen, context_at};
use qvt_types_units::numbers::is_mapping;
use qvt_types_units::signature::HeadClass;
use std::alloc::Global;

/// The units that are called like this one.
pub fn units_like<'a>(alloc: Global, program: &'a Program, number: u32) -> &'a [u32]
    ensures { result.now ≡ chosen.units_like (program_view program.now) number }
{
    let none = no_unit(alloc);
    let unit = signature_of(program, number, &none);
    let maps = is_mapping(unit.sort);
    program.units().names().group(maps, unit.name.as_str())
}

/// What typing finds for objects of the class among the units that are called like this one.
#[tactic(auto, unfolding(qvt_types_units::specs::Choice::called_on))]
fn found_like(
    alloc: Global,
    program: &Program,
    number: u32,
    class: ClassNo,
) -> Result<FoundUnit, ListFault>
    ensures { IfOk result (λ f. f ≡ chosen.found_among (program_view program.now) (chosen.units_like (program_view program.now) number) class.0) }
{
    let none = no_unit(alloc);
    let unit = signature_of(program, number, &none);
    let maps = is_mapping(unit.sort);
    program
        .units()
        .called_on(alloc, maps, unit.name.as_str(), class)
}

/// The choice that what is found tells, if it tells it.
fn told(found: FoundUnit) -> Option<Option<u32>>
    ensures { result ≡ chosen.told found }
{
    match found {
        FoundUnit::NoUnit => Some(None),
        FoundUnit::Untyped => None,
        FoundUnit::Unclear => None,
        FoundUnit::Chosen(number) => Some(Some(number)),
    }
}

/// The choice among any units, in the time that it takes to compare each with each.
pub fn chosen_among(
    alloc: Global,
    program: &Program,
    numbers: &[u32],
    class: ClassNo,
) -> Result<Option<u32>, ListFault>
    ensures { IfOk result (λ n. n ≡ chosen.chosen_among (program_view program.now) numbers.now class.0) }
{
    chosen(alloc, program.metas(), program.signatures(), numbers, class)
}

/// The choice among the units that are called like this one. Of a program that is accepted, and objects to which a call of it may be
/// handed, what typing has found always tells it.
#[tactic(auto, using(crate::proofs::Told::told_is))]
pub fn chosen_like(
    alloc: Global,
    program: &Program,
    number: u32,
    class: ClassNo,
) -> Result<Option<u32>, ListFault>
    ensures { IfOk result (λ n. n ≡ chosen.chosen_among (program_view program.now) (chosen.units_like (program_view program.now) number) class.0) }
{
    match told(found_like(alloc, program, number, class)?) {
        Some(choice) => Ok(choice),
        None => chosen_among(alloc, program, units_like(alloc, program, number), class),
    }
}

/// The unit with this context, if objects of the class may be handed to it.
fn alone_with(metas: &Metas, context: HeadClass, number: u32, class: ClassNo) -> Option<u32>
    ensures { result ≡ chosen.alone metas.now context number class.0 }
{
    match context {
        HeadClass::Missing => None,
        HeadClass::Unknown => None,
        HeadClass::Known(above) => {
            if metas.descends(class, above) {
                Some(number)
            } else {
                None
            }
        }
    }
}

/// The choice where there is one unit.
#[tactic(auto, using(crate::proofs::Told::alone_is))]
pub fn alone(program: &Program, number: u32, class: ClassNo) -> Option<u32>
    ensures { result ≡ chosen.chosen_among (program_view program.now) (number ∷ []) class.0 }
{
    let context = context_at(program.signatures(), number);
    alone_with(program.metas(), context, number, class)
}
