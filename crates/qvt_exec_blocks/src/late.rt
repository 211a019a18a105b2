//! Late assignments (QVT 1.3, 8.1.10).

ghost use Rattle.std.specs.Prelude.{◌≡◌, IfOk};
ghost use Rattle.qvt_exec_resolves.specs.Nodes as nodes;
ghost use Rattle.qvt_exec_resolves.specs.Program.{form_of};
ghost use Rattle.qvt_exec_resolves.specs.Readings as by;
ghost use Rattle.qvt_types_nodes.specs.View.{typed_resolve_view};
ghost use Rattle.qvt_exec_state.specs.Runs.{Runs, seen};
ghost use Rattle.qvt_exec_phrases.specs.Means.{expr_of, late_source_of, program_of, setting_of, target_of};
ghost use Rattle.qvt_exec_blocks.specs.Late.{late_behind};

use qvt_base::list_fault::ListFault;
use qvt_base::numbers::{ClassNo, FeatureNo, Oid, Place};
use qvt_exec_phrases::engine::Engine;
use qvt_exec_phrases::nested::{Nested, program};
use qvt_exec_phrases::units::ReadyUnits;
use qvt_exec_resolves::forms::{form_of, query_of};
use qvt_exec_resolves::late::{entered, if_fits};
use qvt_exec_resolves::sources::{sources_of, valid_source};
use qvt_exec_state::state::RunState;
use qvt_exec_state::steps::{misfit, tick};
use qvt_exec_statements::targets::{bare_target, owner};
use qvt_exec_steps::late::late_source;
use qvt_run_data::exit::Halt;
use qvt_run_data::request::RequestForm;
use qvt_types_data::note::{Note, Reading};
use qvt_types_nodes::tree::{TypedExpr, TypedResolveCall, TypedTarget};

/// A late resolve as it is written, None where it is not told of which class its objects are.
fn late_form<C: Nested>(
    x: &Engine<'_>,
    units: &ReadyUnits<C>,
    resolve: &TypedResolveCall,
) -> Result<Option<RequestForm>, ListFault>
    ensures { IfOk result (λ form. form ≡ form_of (program_of (x.now, C.means units.now)) (typed_resolve_view resolve.now)) }
{
    form_of(x.alloc, program(units), resolve)
}

/// A late assignment to a slot of an object, whose sign stands at the first place and whose resolve at the
/// second.
fn late_on<C: Nested>(
    x: &Engine<'_>,
    units: &ReadyUnits<C>,
    object: Oid,
    feature: FeatureNo,
    adds: bool,
    node: &TypedExpr,
    form: RequestForm,
    sign: Place,
    place: Place,
    state: &mut RunState<'_>,
) -> Result<(), Halt>
    ensures { Runs (late_behind (x.now, C.means units.now) object feature.0 adds (late_source_of (x.now, C.means units.now) node.now) form sign place (seen state.old)) result state.new }
{
    let source = late_source(x, units, node, state)?;
    let source = valid_source(source, state)?;
    tick(x.limit, state)?;
    let sources = sources_of(x.alloc, place, &source, state)?;
    if_fits(feature, ClassNo(form.class), sign, state)?;
    if x.is_plain {
        return misfit(sign);
    }
    entered(
        x.alloc,
        object,
        feature,
        adds,
        query_of(form, sources),
        sign,
        state,
    )
}

/// A late assignment to what a bare name means.
#[tactic(auto, unfolding(qvt_run_rules::specs::Resolve::late))]
fn bare_late<C: Nested>(
    x: &Engine<'_>,
    units: &ReadyUnits<C>,
    note: &Note,
    adds: bool,
    node: &TypedExpr,
    resolve: &TypedResolveCall,
    sign: Place,
    state: &mut RunState<'_>,
) -> Result<(), Halt>
    ensures { Runs (by.bare_late (setting_of (x.now, C.means units.now)) note.now.reading note.now.source adds (late_source_of (x.now, C.means units.now) node.now) (form_of (program_of (x.now, C.means units.now)) (typed_resolve_view resolve.now)) sign (nodes.resolve_mark (typed_resolve_view resolve.now)).place (seen state.old)) result state.new }
{
    match &note.reading {
        Reading::Feature(feature) => match late_form(x, units, resolve)? {
            None => misfit(resolve.place),
            Some(form) => {
                let object = bare_target(&note.source, *feature, sign, state)?;
                late_on(
                    x,
                    units,
                    object,
                    *feature,
                    adds,
                    node,
                    form,
                    sign,
                    resolve.place,
                    state,
                )
            }
        },
        _ => misfit(sign),
    }
}

/// A late assignment to a property behind a dot.
#[tactic(auto, unfolding(qvt_run_rules::specs::Resolve::late))]
fn member_late<C: Nested>(
    x: &Engine<'_>,
    units: &ReadyUnits<C>,
    object: &TypedExpr,
    note: &Note,
    adds: bool,
    node: &TypedExpr,
    resolve: &TypedResolveCall,
    sign: Place,
    state: &mut RunState<'_>,
) -> Result<(), Halt>
    ensures { Runs (by.member_late (setting_of (x.now, C.means units.now)) note.now.reading (expr_of (x.now, C.means units.now) object.now) adds (late_source_of (x.now, C.means units.now) node.now) (form_of (program_of (x.now, C.means units.now)) (typed_resolve_view resolve.now)) sign (nodes.resolve_mark (typed_resolve_view resolve.now)).place (seen state.old)) result state.new }
{
    match &note.reading {
        Reading::Feature(feature) => match late_form(x, units, resolve)? {
            None => misfit(resolve.place),
            Some(form) => {
                let object = owner(x, units, object, *feature, sign, state)?;
                late_on(
                    x,
                    units,
                    object,
                    *feature,
                    adds,
                    node,
                    form,
                    sign,
                    resolve.place,
                    state,
                )
            }
        },
        _ => misfit(sign),
    }
}

/// An assignment whose right side is a late resolve.
#[tactic(auto, unfolding(qvt_exec_phrases::specs::Means::target_of, qvt_exec_phrases::specs::Means::expr_of, qvt_meaning::specs::Phrases::target))]
pub(crate) fn assign_late<C: Nested>(
    x: &Engine<'_>,
    units: &ReadyUnits<C>,
    target: &TypedTarget,
    adds: bool,
    node: &TypedExpr,
    resolve: &TypedResolveCall,
    sign: Place,
    state: &mut RunState<'_>,
) -> Result<(), Halt>
    ensures { Runs (by.assign_late (setting_of (x.now, C.means units.now)) (target_of (x.now, C.means units.now) target.now) adds (late_source_of (x.now, C.means units.now) node.now) (form_of (program_of (x.now, C.means units.now)) (typed_resolve_view resolve.now)) sign (nodes.resolve_mark (typed_resolve_view resolve.now)).place (seen state.old)) result state.new }
{
    match target {
        TypedTarget::Bare { note, .. } => bare_late(
            x, units, note, adds, node, resolve, sign, state,
        ),
        TypedTarget::ResultVar { .. } => misfit(sign),
        TypedTarget::Member { object, note, .. } => {
            member_late(x, units, object, note, adds, node, resolve, sign, state)
        }
    }
}
