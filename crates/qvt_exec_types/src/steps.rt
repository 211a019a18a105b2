//! The types of steps.

ghost use Rattle.std.specs.Prelude.{◌≡◌, false, true, map, option_map, IfOk};
ghost use Rattle.qvt_types_nodes.specs.View.{typed_expr_view, typed_exprs_of, typed_head_view, typed_map_view, typed_optional_head, typed_step_view};
ghost use Rattle.qvt_types_program.specs.Program.{program_view};
ghost use Rattle.qvt_types_steps.specs.Classes as classes;
ghost use Rattle.qvt_types_steps.specs.Properties as properties;
ghost use Rattle.qvt_meaning.specs.Calls as calls;
ghost use Rattle.qvt_meaning.specs.Nodes as nodes;
ghost use Rattle.qvt_meaning.specs.StepTypes as types;

use crate::arguments::{class_parts, has_head, heading_of, types_of};
use crate::nodes::answer_of;
use crate::resolves::resolved_type;
use qvt_base::list_fault::ListFault;
use qvt_base::text::Text;
use qvt_types_data::note::Reading;
use qvt_types_data::ty::Ty;
use qvt_types_nodes::tree::{TypedExpr, TypedHead, TypedMapCall, TypedStep};
use qvt_types_program::calls::{called_behind, map_ruled, unit_ruled};
use qvt_types_program::program::Program;
use qvt_types_steps::arrows::arrow;
use qvt_types_steps::calls::dot_call;
use qvt_types_steps::classes::{
    ModelCall, class_test, class_test_named, is_selection, model_call_named, model_objects,
    model_objects_of, selection,
};
use qvt_types_steps::properties::property;
use std::alloc::Global;

fn property_type(
    alloc: Global,
    program: &Program,
    name: &Text,
    source: &Option<Ty>,
) -> Result<Option<Ty>, ListFault>
    ensures { IfOk result (λ t. t ≡ types.answer_of (properties.property (program_view program.now).heads.metas name.now source.now)) }
{
    let ruling = property(alloc, program.metas(), name.as_str(), source)?;
    Ok(answer_of(ruling))
}

/// The type of an operation of a model.
fn model_type(
    alloc: Global,
    program: &Program,
    name: &Text,
    args: &[TypedExpr],
) -> Result<Option<Ty>, ListFault>
    ensures { IfOk result (λ t. t ≡ types.model_type (program_view program.now).heads name.now (typed_exprs_of (map typed_expr_view args.now)) (classes.model_call_named name.now)) }
{
    let Some(call) = model_call_named(name.as_str()) else {
        return Ok(None);
    };
    if let ModelCall::ObjectsOfType = call {
        let parts = class_parts(alloc, args)?;
        return Ok(answer_of(model_objects_of(alloc, name, parts.as_slice())?));
    }
    let types = types_of(alloc, args)?;
    let element = program.heads().types.element();
    let ruling = model_objects(alloc, name, element, &types)?;
    Ok(answer_of(ruling))
}

/// The type of a test or cast of an object, or of an operation.
fn tested_type(
    alloc: Global,
    program: &Program,
    name: &Text,
    args: &[TypedExpr],
    source: &Option<Ty>,
) -> Result<Option<Ty>, ListFault>
    ensures { IfOk result (λ t. t ≡ types.tested_type (program_view program.now).heads name.now (classes.class_test_named name.now) (typed_exprs_of (map typed_expr_view args.now)) source.now) }
{
    if let Some(test) = class_test_named(name.as_str()) {
        let parts = class_parts(alloc, args)?;
        let ruling = class_test(alloc, name, test, source, parts.as_slice())?;
        return Ok(answer_of(ruling));
    }
    let types = types_of(alloc, args)?;
    let ruling = dot_call(alloc, program.metas(), name, source, &types)?;
    Ok(answer_of(ruling))
}

/// The type of a call of a helper or a query.
fn unit_type(
    alloc: Global,
    program: &Program,
    name: &Text,
    args: &[TypedExpr],
    source: &Option<Ty>,
) -> Result<Option<Ty>, ListFault>
    ensures { IfOk result (λ t. t ≡ types.answer_of (calls.unit_ruled (program_view program.now).heads source.now (calls.called_behind (program_view program.now).heads false false name.now source.now) (nodes.types_of (typed_exprs_of (map typed_expr_view args.now))))) }
{
    let heads = program.heads();
    let called = called_behind(alloc, &heads, false, false, name.as_str(), source)?;
    let types = types_of(alloc, args)?;
    let ruling = unit_ruled(alloc, &heads, source, &called, &types)?;
    Ok(answer_of(ruling))
}

/// The type of a step with arguments behind a dot.
fn dot_type(
    alloc: Global,
    program: &Program,
    name: &Text,
    reading: &Reading,
    args: &[TypedExpr],
    source: &Option<Ty>,
) -> Result<Option<Ty>, ListFault>
    ensures { IfOk result (λ t. t ≡ types.dot_type (program_view program.now).heads name.now reading.now (typed_exprs_of (map typed_expr_view args.now)) source.now) }
{
    if source.is_none() {
        return model_type(alloc, program, name, args);
    }
    match reading {
        Reading::Units(_) => unit_type(alloc, program, name, args, source),
        _ => tested_type(alloc, program, name, args, source),
    }
}

/// The type of an iterator, an operation or a selection behind an arrow.
fn arrow_type(
    alloc: Global,
    program: &Program,
    name: &Text,
    head: &Option<TypedHead>,
    args: &[TypedExpr],
    source: &Option<Ty>,
) -> Result<Option<Ty>, ListFault>
    ensures { IfOk result (λ t. t ≡ types.arrow_type (program_view program.now).heads name.now (typed_optional_head (option_map typed_head_view head.now)) (typed_exprs_of (map typed_expr_view args.now)) source.now) }
{
    if is_selection(name.as_str()) {
        let parts = class_parts(alloc, args)?;
        let ruling = selection(alloc, name, has_head(head), source, parts.as_slice())?;
        return Ok(answer_of(ruling));
    }
    let heading = heading_of(alloc, head)?;
    let types = types_of(alloc, args)?;
    let ruling = arrow(alloc, program.metas(), name, &heading, source, &types)?;
    Ok(answer_of(ruling))
}

/// The type of a call of a mapping by its name, behind an arrow or else behind a dot.
fn mapped_type(
    alloc: Global,
    program: &Program,
    is_arrow: bool,
    name: &Text,
    args: &[TypedExpr],
    source: &Option<Ty>,
) -> Result<Option<Ty>, ListFault>
    ensures { IfOk result (λ t. t ≡ types.answer_of (calls.map_ruled (program_view program.now).heads is_arrow source.now (calls.called_behind (program_view program.now).heads true is_arrow name.now source.now) (nodes.types_of (typed_exprs_of (map typed_expr_view args.now))))) }
{
    let heads = program.heads();
    let called = called_behind(alloc, &heads, true, is_arrow, name.as_str(), source)?;
    let types = types_of(alloc, args)?;
    let ruling = map_ruled(alloc, &heads, is_arrow, source, &called, &types)?;
    Ok(answer_of(ruling))
}

fn map_type(
    alloc: Global,
    program: &Program,
    is_arrow: bool,
    call: &TypedMapCall,
    source: &Option<Ty>,
) -> Result<Option<Ty>, ListFault>
    ensures { IfOk result (λ t. t ≡ types.map_type (program_view program.now).heads is_arrow (typed_map_view call.now) source.now) }
{
    mapped_type(
        alloc,
        program,
        is_arrow,
        &call.name,
        call.args.as_slice(),
        source,
    )
}

/// The type of a step on a source with this type.
#[tactic(auto, unfolding(qvt_meaning::specs::StepTypes::step_type))]
pub fn step_type(
    alloc: Global,
    program: &Program,
    step: &TypedStep,
    source: &Option<Ty>,
) -> Result<Option<Ty>, ListFault>
    ensures { IfOk result (λ t. t ≡ types.step_type (program_view program.now) (typed_step_view step.now) source.now) }
{
    match step {
        TypedStep::Dot {
            name,
            args,
            note,
            ..
        } => match args {
            None => property_type(alloc, program, name, source),
            Some(args) => dot_type(alloc, program, name, &note.reading, args.as_slice(), source),
        },
        TypedStep::Arrow {
            name,
            head,
            args,
            ..
        } => arrow_type(alloc, program, name, head, args.as_slice(), source),
        TypedStep::DotMap(call) => map_type(alloc, program, false, call, source),
        TypedStep::ArrowMap(call) => map_type(alloc, program, true, call, source),
        TypedStep::DotResolve(call) => resolved_type(alloc, program, call),
        TypedStep::ArrowResolve(call) => resolved_type(alloc, program, call),
    }
}
