//! The units of a program by their numbers.

ghost use Rattle.std.specs.Prelude.{◌≡◌, option_map};
ghost use Rattle.std.specs.Option.{option_copied};
ghost use Rattle.qvt_meaning.specs.Program as of_program;
ghost use Rattle.qvt_types_nodes.specs.Module.{typed_mapping_view, typed_unit_view};
ghost use Rattle.qvt_types_program.specs.Program.{program_view};
ghost use Rattle.qvt_types_units.specs.Numbers as numbers;

use qvt_base::numbers::{ClassNo, MappingNo};
use qvt_types_nodes::module::{TypedMapping, TypedUnit};
use qvt_types_program::program::Program;
pub use qvt_types_units::numbers::no_unit;
use qvt_types_units::signature::{Signature, UnitSort};

/// The unit of this number, with its body.
pub fn unit_of(program: &Program, number: u32) -> Option<&TypedUnit>
    ensures { option_map typed_unit_view (option_copied result) ≡ of_program.unit_term (program_view program.now) number }
{
    program.unit(number)
}

/// The signature of the unit, or the one that stands for none.
pub fn signature_of<'a>(program: &'a Program, number: u32, none: &'a Signature) -> &'a Signature
    requires { none.now ≡ numbers.no_unit }
    ensures { result.now ≡ of_program.signature_of (program_view program.now) number }
{
    let units = program.signatures();
    let at = number as usize;
    if at < units.len() { &units[at] } else { none }
}

/// What the unit is; a `main` where there is none of the number.
pub fn sort_of(program: &Program, number: u32) -> UnitSort
    ensures { result ≡ (of_program.signature_of (program_view program.now) number).sort }
{
    let units = program.signatures();
    let at = number as usize;
    if at < units.len() {
        units[at].sort
    } else {
        UnitSort::Main
    }
}

/// The unit that the mapping is.
pub fn mapping_unit(program: &Program, mapping: u32) -> Option<u32>
    ensures { result ≡ of_program.mapping_unit (program_view program.now) mapping }
{
    program.mapping_unit(MappingNo(mapping))
}

/// The mapping that a unit is.
fn mapping_in(unit: Option<&TypedUnit>) -> Option<&TypedMapping>
    ensures { option_map typed_mapping_view (option_copied result) ≡ of_program.mapping_in (option_map typed_unit_view (option_copied unit.entry)) }
{
    match unit {
        Some(TypedUnit::Mapping(mapping)) => Some(mapping),
        _ => None,
    }
}

/// The mapping of this number among mappings, with its sections.
#[tactic(auto, unfolding(qvt_meaning::specs::Program::mapping_term))]
pub fn mapping_of(program: &Program, mapping: u32) -> Option<&TypedMapping>
    ensures { option_map typed_mapping_view (option_copied result) ≡ of_program.mapping_term (program_view program.now) mapping }
{
    match mapping_unit(program, mapping) {
        None => None,
        Some(number) => mapping_in(unit_of(program, number)),
    }
}

/// The constructor of the class with so many parameters.
pub fn constructor_of(program: &Program, class: ClassNo, count: usize) -> Option<u32>
    ensures { result ≡ numbers.constructor_of class.0 count (program_view program.now).heads.units }
{
    program.units().names().constructor_of(class, count)
}
