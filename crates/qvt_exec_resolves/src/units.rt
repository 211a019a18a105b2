//! Mappings by their numbers, and those that their lists name.

ghost use Rattle.std.specs.Prelude.{◌≡◌, ◌++◌, [], option_map, IfOk, OnOk};
ghost use Rattle.std.specs.Option.{option_copied};
ghost use Rattle.qvt_types_nodes.specs.Module.{typed_mapping_view};
ghost use Rattle.qvt_exec_types.specs.Program.{program_view};
ghost use Rattle.qvt_meaning.specs.Nodes.{mappings_in, mappings_named};
ghost use Rattle.qvt_meaning.specs.Program as meaning;
ghost use Rattle.qvt_exec_resolves.specs.Disjuncts.{next_of};

use qvt_base::list_fault::ListFault;
use qvt_base::numbers::MappingNo;
use qvt_base::seq::Seq;
use qvt_exec_types::program::Program;
use qvt_types_data::note::Reading;
use qvt_types_nodes::module::{TypedMapping, TypedUnit};
use qvt_types_nodes::types::TypedPathTree;
use std::alloc::Global;

/// The unit that the mapping of this number is.
pub fn mapping_unit(program: &Program, mapping: u32) -> Option<u32>
    ensures { result ≡ meaning.mapping_unit (program_view program.now) mapping }
{
    program.mapping_unit(MappingNo(mapping))
}

/// The mapping that a unit is.
fn mapping_of(program: &Program, unit: Option<u32>) -> Option<&TypedMapping>
    ensures { option_map typed_mapping_view (option_copied result) ≡ meaning.mapping_at (program_view program.now) unit }
{
    match unit {
        None => None,
        Some(number) => match program.unit(number) {
            Some(TypedUnit::Mapping(mapping)) => Some(mapping),
            _ => None,
        },
    }
}

/// The mapping of this number.
#[tactic(auto, unfolding(qvt_meaning::specs::Program::mapping_term))]
pub fn mapping_at(program: &Program, mapping: u32) -> Option<&TypedMapping>
    ensures { option_map typed_mapping_view (option_copied result) ≡ meaning.mapping_term (program_view program.now) mapping }
{
    mapping_of(program, mapping_unit(program, mapping))
}

/// Puts the numbers of the mappings last.
fn push_numbers(all: &mut Seq<u32>, mappings: &[MappingNo]) -> Result<(), ListFault>
    ensures { OnOk result (all.new ≡ all.old ++ meaning.numbers mappings.now) }
{
    for mapping in mappings {
        all.push(mapping.0)?;
    }
    Ok(())
}

/// The mappings that a path stands for.
fn push_named(all: &mut Seq<u32>, reading: &Reading) -> Result<(), ListFault>
    ensures { OnOk result (all.new ≡ all.old ++ meaning.numbers (mappings_in reading.now)) }
{
    match reading {
        Reading::Mappings(mappings) => push_numbers(all, mappings.as_slice()),
        _ => Ok(()),
    }
}

/// The mappings that the paths stand for.
pub fn named_by(alloc: Global, paths: &[TypedPathTree]) -> Result<Seq<u32>, ListFault>
    ensures { IfOk result (λ all. all ≡ meaning.numbers (mappings_named paths.now)) }
{
    let mut all = Seq::new(alloc);
    for path in paths {
        push_named(&mut all, &path.note.reading)?;
    }
    Ok(all)
}

/// The mappings that a mapping disjuncts to itself.
#[tactic(auto, unfolding(crate::specs::Disjuncts::next_of))]
pub fn disjuncts(alloc: Global, program: &Program, mapping: u32) -> Result<Seq<u32>, ListFault>
    ensures { IfOk result (λ all. all ≡ next_of (program_view program.now) mapping) }
{
    match mapping_at(program, mapping) {
        None => Ok(Seq::new(alloc)),
        Some(found) => named_by(alloc, found.disjuncts.as_slice()),
    }
}
