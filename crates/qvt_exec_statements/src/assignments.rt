//! Assignments (QVT 1.3, 8.2.2.11 AssignExp).

ghost use Rattle.qvt_exec_resolves.specs.Nodes as nodes;
ghost use Rattle.qvt_exec_resolves.specs.Readings as by;
ghost use Rattle.qvt_types_nodes.specs.View.{typed_expr_view};
ghost use Rattle.qvt_exec_state.specs.Runs.{Runs, seen};
ghost use Rattle.qvt_exec_phrases.specs.Means.{expr_of, setting_of, target_of, valid_of};
ghost use Rattle.qvt_exec_statements.specs.Puts.{put_valid};

use crate::targets::{bare_target, owner};
use qvt_base::numbers::{FeatureNo, Oid, Place};
use qvt_exec_moves::assignments::add_variable;
use qvt_exec_moves::objects::put;
use qvt_exec_moves::values::valid;
use qvt_exec_moves::variables::set_variable;
use qvt_exec_phrases::engine::Engine;
use qvt_exec_phrases::nested::{Nested, expr};
use qvt_exec_phrases::units::ReadyUnits;
use qvt_exec_state::names::RESULT_NAME;
use qvt_exec_state::state::RunState;
use qvt_exec_state::steps::misfit;
use qvt_exec_types::nodes::note_of;
use qvt_run_data::exit::Halt;
use qvt_types_data::note::{Note, Reading};
use qvt_types_nodes::tree::{TypedExpr, TypedTarget};
use qvt_value::value::Value;

/// A value that is not invalid.
fn valid_value<C: Nested>(
    x: &Engine<'_>,
    units: &ReadyUnits<C>,
    node: &TypedExpr,
    state: &mut RunState<'_>,
) -> Result<Value, Halt>
    ensures { Runs (valid_of (x.now, C.means units.now) node.now (seen state.old)) result state.new }
{
    let value = expr(x, units, node, state)?;
    valid(value, state)
}

/// A value for a slot of an object.
#[inline(never)]
fn put_value<C: Nested>(
    x: &Engine<'_>,
    units: &ReadyUnits<C>,
    object: Oid,
    feature: FeatureNo,
    adds: bool,
    node: &TypedExpr,
    place: Place,
    state: &mut RunState<'_>,
) -> Result<(), Halt>
    ensures { Runs (put_valid (x.now, C.means units.now) object.0 feature.0 adds node.now place (seen state.old)) result state.new }
{
    let value = valid_value(x, units, node, state)?;
    put(x.alloc, object, feature, adds, &value, place, state)
}

/// A value for a variable.
#[inline(never)]
#[tactic(auto, unfolding(qvt_run_rules::specs::Statements::assign_variable, qvt_run_rules::specs::Statements::add_variable))]
fn variable_assign<C: Nested>(
    x: &Engine<'_>,
    units: &ReadyUnits<C>,
    name: &str,
    adds: bool,
    node: &TypedExpr,
    place: Place,
    state: &mut RunState<'_>,
) -> Result<(), Halt>
    ensures { Runs (by.assign_variable (setting_of (x.now, C.means units.now)) name.now adds (nodes.type_of (typed_expr_view node.now)) (expr_of (x.now, C.means units.now) node.now) place (seen state.old)) result state.new }
{
    let value = valid_value(x, units, node, state)?;
    if adds {
        let of = note_of(node).answer.as_ref();
        add_variable(x.alloc, name, of, value, place, state)
    } else {
        set_variable(x.alloc, name, value, place, state)
    }
}

/// A value for what a bare name means.
#[inline(never)]
#[tactic(auto, unfolding(qvt_run_rules::specs::Statements::assign_property))]
fn bare_assign<C: Nested>(
    x: &Engine<'_>,
    units: &ReadyUnits<C>,
    note: &Note,
    adds: bool,
    node: &TypedExpr,
    place: Place,
    state: &mut RunState<'_>,
) -> Result<(), Halt>
    ensures { Runs (by.bare_assign (setting_of (x.now, C.means units.now)) note.now.reading note.now.source adds (nodes.type_of (typed_expr_view node.now)) (expr_of (x.now, C.means units.now) node.now) place (seen state.old)) result state.new }
{
    match &note.reading {
        Reading::Variable(name) => variable_assign(
            x,
            units,
            name.as_str(),
            adds,
            node,
            place,
            state,
        ),
        Reading::Feature(feature) => {
            let object = bare_target(&note.source, *feature, place, state)?;
            put_value(x, units, object, *feature, adds, node, place, state)
        }
        _ => misfit(place),
    }
}

/// A value for a property behind a dot.
#[inline(never)]
#[tactic(auto, unfolding(qvt_run_rules::specs::Statements::assign_property))]
fn member_assign<C: Nested>(
    x: &Engine<'_>,
    units: &ReadyUnits<C>,
    object: &TypedExpr,
    note: &Note,
    adds: bool,
    node: &TypedExpr,
    place: Place,
    state: &mut RunState<'_>,
) -> Result<(), Halt>
    ensures { Runs (by.member_assign (setting_of (x.now, C.means units.now)) note.now.reading (expr_of (x.now, C.means units.now) object.now) adds (expr_of (x.now, C.means units.now) node.now) place (seen state.old)) result state.new }
{
    match &note.reading {
        Reading::Feature(feature) => {
            let object = owner(x, units, object, *feature, place, state)?;
            put_value(x, units, object, *feature, adds, node, place, state)
        }
        _ => misfit(place),
    }
}

/// A value that is assigned.
#[tactic(auto, unfolding(qvt_exec_phrases::specs::Means::target_of, qvt_exec_phrases::specs::Means::expr_of, qvt_meaning::specs::Phrases::target))]
pub fn assign_value<C: Nested>(
    x: &Engine<'_>,
    units: &ReadyUnits<C>,
    target: &TypedTarget,
    adds: bool,
    node: &TypedExpr,
    place: Place,
    state: &mut RunState<'_>,
) -> Result<(), Halt>
    ensures { Runs (by.assign_value (setting_of (x.now, C.means units.now)) (target_of (x.now, C.means units.now) target.now) adds (nodes.type_of (typed_expr_view node.now)) (expr_of (x.now, C.means units.now) node.now) place (seen state.old)) result state.new }
{
    match target {
        TypedTarget::Bare { note, .. } => bare_assign(x, units, note, adds, node, place, state),
        TypedTarget::ResultVar { .. } => variable_assign(
            x,
            units,
            RESULT_NAME,
            adds,
            node,
            place,
            state,
        ),
        TypedTarget::Member { object, note, .. } => {
            member_assign(x, units, object, note, adds, node, place, state)
        }
    }
}
