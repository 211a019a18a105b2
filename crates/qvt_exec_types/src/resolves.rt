//! The types of resolves.

ghost use Rattle.std.specs.Prelude.{◌≡◌, option_map, IfOk};
ghost use Rattle.qvt_types_nodes.specs.View.{typed_boxed_filter_view, typed_resolve_view};
ghost use Rattle.qvt_types_program.specs.Program.{program_view};
ghost use Rattle.qvt_meaning.specs.Program as words;
ghost use Rattle.qvt_meaning.specs.StepTypes as types;

use crate::nodes::{answer_of, class_in, written_type};
use qvt_base::list_fault::ListFault;
use qvt_base::numbers::MappingNo;
use qvt_tree_types::words::ResolveWord;
use qvt_types_data::note::Reading;
use qvt_types_data::ty::Ty;
use qvt_types_nodes::tree::{TypedFilter, TypedResolveCall};
use qvt_types_nodes::types::TypedPathTree;
use qvt_types_program::calls::{no_unit, unit_at};
use qvt_types_program::program::Program;
use qvt_types_program::signature::{HeadClass, Signature};
use qvt_types_steps::classes::ClassPart;
use qvt_types_steps::resolves::{Joint, resolve};
use std::alloc::Global;

/// The mapping of a list that has one alone.
fn named_mapping(mappings: &[MappingNo]) -> Option<MappingNo>
    ensures { option_map (λ m. m.0) result ≡ words.named_mapping mappings.now }
{
    match mappings {
        [mapping] => Some(*mapping),
        _ => None,
    }
}

/// The mapping that an `In` form names.
pub fn within_named(within: &Option<TypedPathTree>) -> Option<MappingNo>
    ensures { option_map (λ m. m.0) result ≡ words.within_named within.now }
{
    let Some(path) = within else {
        return None;
    };
    match &path.note.reading {
        Reading::Mappings(mappings) => named_mapping(mappings.as_slice()),
        _ => None,
    }
}

/// A class at the head of a unit.
fn known_class(class: HeadClass) -> ClassPart
    ensures { result ≡ types.class_part (words.known_class class) }
{
    match class {
        HeadClass::Known(class) => ClassPart::Class(class),
        _ => ClassPart::Missing,
    }
}

/// The class of what a resolve finds of a mapping.
fn end_class(word: ResolveWord, unit: &Signature) -> ClassPart
    ensures { result ≡ types.class_part (words.end_class word unit.now) }
{
    if word.is_inverse() {
        known_class(unit.context)
    } else {
        known_class(unit.result)
    }
}

/// The class of what a resolve finds of the mapping with this number.
#[tactic(auto, unfolding(qvt_meaning::specs::Program::mapping_unit, qvt_types_program::specs::Mappings::mapping_unit))]
fn mapping_class(
    alloc: Global,
    program: &Program,
    word: ResolveWord,
    mapping: Option<MappingNo>,
) -> ClassPart
    ensures { result ≡ types.class_part (words.mapping_class (program_view program.now) word (option_map (λ m. m.0) mapping)) }
{
    let Some(mapping) = mapping else {
        return ClassPart::Missing;
    };
    match program.mapping_unit(mapping) {
        None => ClassPart::Missing,
        Some(number) => {
            let none = no_unit(alloc);
            end_class(word, unit_at(program.units(), number, &none))
        }
    }
}

/// The class that a resolve looks for: that of its filter, else that of the mapping.
fn class_for(
    alloc: Global,
    program: &Program,
    word: ResolveWord,
    mapping: Option<MappingNo>,
    filter: &Option<Box<TypedFilter>>,
) -> ClassPart
    ensures { result ≡ types.class_part (words.class_for (program_view program.now) word (option_map (λ m. m.0) mapping) (typed_boxed_filter_view filter.now)) }
{
    match filter {
        Some(filter) => class_in(written_type(&filter.kind)),
        None => mapping_class(alloc, program, word, mapping),
    }
}

/// The type of a resolve by its parts.
fn found_type(
    alloc: Global,
    program: &Program,
    word: ResolveWord,
    within: &Option<TypedPathTree>,
    filter: &Option<Box<TypedFilter>>,
) -> Result<Option<Ty>, ListFault>
    ensures { IfOk result (λ t. t ≡ types.form_type word (words.form_with (program_view program.now) word (words.within_named within.now) (typed_boxed_filter_view filter.now) (words.class_for (program_view program.now) word (words.within_named within.now) (typed_boxed_filter_view filter.now)))) }
{
    let mapping = within_named(within);
    let class = class_for(alloc, program, word, mapping, filter);
    let ruling = resolve(alloc, Joint::Sourceless, word, &None, class)?;
    Ok(answer_of(ruling))
}

/// The type of a resolve.
#[tactic(auto, unfolding(qvt_meaning::specs::Program::form_of))]
pub fn resolved_type(
    alloc: Global,
    program: &Program,
    call: &TypedResolveCall,
) -> Result<Option<Ty>, ListFault>
    ensures { IfOk result (λ t. t ≡ types.resolved_type (program_view program.now) (typed_resolve_view call.now)) }
{
    found_type(alloc, program, call.word, &call.within, &call.filter)
}
