//! What a late resolve stands behind.

ghost use Rattle.qvt_types_nodes.specs.View.{typed_expr_view};
ghost use Rattle.qvt_exec_types.specs.Nodes as nodes;
ghost use Rattle.qvt_exec_types.specs.Phrases.{but_last, some_value};
ghost use Rattle.qvt_exec_types.specs.Readings as by;
ghost use Rattle.qvt_exec_leaves.specs.Runs.{Runs, seen};
ghost use Rattle.qvt_exec_invocations.specs.Means.{all_steps, expr_of, late_source_of, setting_of, steps_of};

use crate::posts::post;
use qvt_base::numbers::Place;
use qvt_exec_invocations::engine::Engine;
use qvt_exec_invocations::nested::Nested;
use qvt_exec_invocations::nodes::before_last;
use qvt_exec_invocations::units::ReadyUnits;
use qvt_exec_leaves::state::RunState;
use qvt_run_data::exit::Halt;
use qvt_types_nodes::tree::{TypedExpr, TypedStep};
use qvt_value::value::Value;

/// A first part with its steps but the last.
fn without_last<C: Nested>(
    x: &Engine<'_>,
    units: &ReadyUnits<C>,
    first: &TypedExpr,
    all: &[TypedStep],
    place: Place,
    state: &mut RunState<'_>,
) -> Result<Option<Value>, Halt>
    ensures { Runs (some_value (by.post_of (setting_of (x.now, C.means units.now)) (nodes.model_named (typed_expr_view first.now)) place (expr_of (x.now, C.means units.now) first.now) (all_steps all.now) (but_last (steps_of (x.now, C.means units.now) (nodes.type_of (typed_expr_view first.now)) all.now))) (seen state.old)) result state.new }
{
    let value = post(x, units, first, all, before_last(all), &place, state)?;
    Ok(Some(value))
}

/// What stands before the late resolve that ends an expression.
#[tactic(auto, unfolding(qvt_exec_phrases::specs::Means::late_source_of, qvt_exec_phrases::specs::Means::expr_of, qvt_exec_phrases::specs::Means::steps_of, qvt_meaning::specs::Phrases::late_source))]
pub fn late_source<C: Nested>(
    x: &Engine<'_>,
    units: &ReadyUnits<C>,
    node: &TypedExpr,
    state: &mut RunState<'_>,
) -> Result<Option<Value>, Halt>
    ensures { Runs (late_source_of (x.now, C.means units.now) node.now (seen state.old)) result state.new }
{
    match node {
        TypedExpr::Post {
            first,
            steps,
            place,
            ..
        } => without_last(x, units, first, steps.as_slice(), *place, state),
        _ => Ok(None),
    }
}
