//! Resolves as they are written (QVT 1.3, 8.1.10 and 8.2.1.22).

ghost use Rattle.std.specs.Prelude.{◌≡◌, IfOk};
ghost use Rattle.std.specs.Option.{option_copied};
ghost use Rattle.qvt_types_nodes.specs.View.{typed_boxed_filter_view, typed_resolve_view, typed_type_view};
ghost use Rattle.qvt_exec_types.specs.Program.{program_view};
ghost use Rattle.qvt_meaning.specs.Nodes as nodes;
ghost use Rattle.qvt_meaning.specs.Program as meaning;
ghost use Rattle.qvt_run_rules.specs.Resolve as rule;

use crate::disjuncts::all_within;
use crate::units::mapping_unit;
use qvt_base::list_fault::ListFault;
use qvt_base::lists::OidList;
use qvt_base::numbers::{ClassNo, ExprNo, MappingNo};
use qvt_exec_types::nodes::{note_of, written_type};
use qvt_exec_types::program::Program;
use qvt_meaning::signature::{HeadClass, Signature};
use qvt_run_data::request::{Query, Request, RequestForm};
use qvt_tree_types::words::ResolveWord;
use qvt_types_data::note::Reading;
use qvt_types_data::ty::Ty;
use qvt_types_nodes::tree::{TypedFilter, TypedResolveCall};
use qvt_types_nodes::types::{TypedPathTree, TypedTypeTree};
use std::alloc::Global;

/// The only one of these mappings.
#[tactic(auto, using(crate::proofs::Named::several))]
fn named_mapping(mappings: &[MappingNo]) -> Option<u32>
    ensures { result ≡ meaning.named_mapping mappings.now }
{
    match mappings {
        [] => None,
        [one] => Some(one.0),
        [_, _, ..] => None,
    }
}

/// The mapping that an `In` form names.
fn within_named(within: &Option<TypedPathTree>) -> Option<u32>
    ensures { result ≡ meaning.within_named within.now }
{
    match within {
        None => None,
        Some(path) => match &path.note.reading {
            Reading::Mappings(mappings) => named_mapping(mappings.as_slice()),
            _ => None,
        },
    }
}

fn known_class(head: HeadClass) -> Option<u32>
    ensures { result ≡ meaning.known_class head }
{
    match head {
        HeadClass::Missing => None,
        HeadClass::Unknown => None,
        HeadClass::Known(class) => Some(class.0),
    }
}

/// The class of the result of a mapping, in the inverse forms that of its context.
fn end_class(word: ResolveWord, unit: &Signature) -> Option<u32>
    ensures { result ≡ meaning.end_class word unit.now }
{
    if word.is_inverse() {
        known_class(unit.context)
    } else {
        known_class(unit.result)
    }
}

/// The same of the unit of this number.
#[tactic(auto, using(crate::proofs::Named::no_class))]
fn unit_class(program: &Program, word: ResolveWord, unit: Option<u32>) -> Option<u32>
    ensures { result ≡ meaning.unit_class (program_view program.now) word unit }
{
    let Some(number) = unit else {
        return None;
    };
    let units = program.signatures();
    let at = number as usize;
    if at < units.len() {
        end_class(word, &units[at])
    } else {
        None
    }
}

/// The same of the mapping that is named, if one is.
fn mapping_class(program: &Program, word: ResolveWord, named: Option<u32>) -> Option<u32>
    ensures { result ≡ meaning.mapping_class (program_view program.now) word named }
{
    match named {
        None => None,
        Some(mapping) => unit_class(program, word, mapping_unit(program, mapping)),
    }
}

fn class_in(ty: Option<&Ty>) -> Option<u32>
    ensures { result ≡ nodes.class_in (option_copied ty.entry) }
{
    match ty {
        Some(Ty::Class(class)) => Some(class.0),
        _ => None,
    }
}

/// The class that is written.
fn written_class(written: &TypedTypeTree) -> Option<u32>
    ensures { result ≡ nodes.class_in (nodes.written_type (typed_type_view written.now)) }
{
    class_in(written_type(written))
}

/// The class that is looked for: that of the filter, else that of the named mapping.
fn class_for(
    program: &Program,
    word: ResolveWord,
    named: Option<u32>,
    filter: &Option<Box<TypedFilter>>,
) -> Option<u32>
    ensures { result ≡ meaning.class_for (program_view program.now) word named (typed_boxed_filter_view filter.now) }
{
    match filter {
        Some(filter) => written_class(&filter.kind),
        None => mapping_class(program, word, named),
    }
}

/// The number of the condition.
fn condition_in(filter: &Option<Box<TypedFilter>>) -> Option<ExprNo>
    ensures { result ≡ meaning.condition_in (typed_boxed_filter_view filter.now) }
{
    match filter {
        None => None,
        Some(filter) => match &filter.condition {
            None => None,
            Some(condition) => note_of(condition).number,
        },
    }
}

/// The form with these parts.
fn form_with(
    alloc: Global,
    program: &Program,
    word: ResolveWord,
    named: Option<u32>,
    filter: &Option<Box<TypedFilter>>,
    class: Option<u32>,
) -> Result<Option<RequestForm>, ListFault>
    ensures { IfOk result (λ form. form ≡ meaning.form_with (program_view program.now) word named (typed_boxed_filter_view filter.now) class) }
{
    let Some(class) = class else {
        return Ok(None);
    };
    let within = all_within(alloc, program, named)?;
    Ok(Some(RequestForm {
        inverse: word.is_inverse(),
        within,
        class,
        one: word.is_one(),
        condition: condition_in(filter),
    }))
}

/// A resolve as it is written, None where it is not told of which class its objects are.
#[tactic(auto, unfolding(qvt_meaning::specs::Program::form_of))]
pub fn form_of(
    alloc: Global,
    program: &Program,
    node: &TypedResolveCall,
) -> Result<Option<RequestForm>, ListFault>
    ensures { IfOk result (λ form. form ≡ meaning.form_of (program_view program.now) (typed_resolve_view node.now)) }
{
    let named = within_named(&node.within);
    let class = class_for(program, node.word, named, &node.filter);
    form_with(alloc, program, node.word, named, &node.filter, class)
}

/// What a resolve of this form asks from these sources. It takes no memory.
pub fn query_of(form: RequestForm, sources: Option<OidList>) -> Query
    ensures { result ≡ rule.query_of form sources }
{
    let mut form = form;
    let within = form.within.take();
    Query {
        request: Request {
            inverse: form.inverse,
            within,
            sources,
            class: ClassNo(form.class),
        },
        one: form.one,
        condition: form.condition,
    }
}
