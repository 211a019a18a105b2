//! A first part with steps behind it.

ghost use Rattle.std.specs.Prelude.{drop};
ghost use Rattle.qvt_types_nodes.specs.View.{typed_expr_view};
ghost use Rattle.qvt_run_rules.specs.Cost.{spend_of};
ghost use Rattle.qvt_run_rules.specs.Expressions as rule;
ghost use Rattle.qvt_exec_types.specs.Nodes as nodes;
ghost use Rattle.qvt_exec_types.specs.Readings as by;
ghost use Rattle.qvt_exec_quiet.specs.Lent as lent;
ghost use Rattle.qvt_exec_leaves.specs.Runs.{Runs, seen};
ghost use Rattle.qvt_exec_invocations.specs.Means.{all_steps, expr_of, setting_of, steps_of};
ghost use Rattle.qvt_exec_steps.specs.Lent.{all_along};

use crate::lent::begun;
use crate::steps::steps_from;
use qvt_base::numbers::Place;
use qvt_exec_invocations::engine::Engine;
use qvt_exec_invocations::nested::Nested;
use qvt_exec_invocations::units::ReadyUnits;
use qvt_exec_leaves::nodes::model_named;
use qvt_exec_leaves::state::RunState;
use qvt_exec_leaves::steps::model_first;
use qvt_exec_types::nodes::note_of;
use qvt_run_data::exit::Halt;
use qvt_types_data::ty::Ty;
use qvt_types_nodes::tree::{TypedExpr, TypedStep};
use qvt_value::value::Value;

/// A first part with some of the steps behind it, all of which are given too.
#[inline(never)]
#[tactic(auto, unfolding(qvt_exec_phrases::specs::Means::steps_of))]
pub fn post<C: Nested>(
    x: &Engine<'_>,
    units: &ReadyUnits<C>,
    first: &TypedExpr,
    all: &[TypedStep],
    steps: &[TypedStep],
    place: &Place,
    state: &mut RunState<'_>,
) -> Result<Value, Halt>
    ensures { Runs (by.post_of (setting_of (x.now, C.means units.now)) (nodes.model_named (typed_expr_view first.now)) place.now (expr_of (x.now, C.means units.now) first.now) (all_steps all.now) (steps_of (x.now, C.means units.now) (nodes.type_of (typed_expr_view first.now)) steps.now) (seen state.old)) result state.new }
{
    match model_named(first) {
        None => on_first(x, units, first, steps, state),
        Some(model) => {
            let ty = &note_of(first).answer;
            model_steps(x, units, all, steps, ty, model, *place, state)
        }
    }
}

/// A first part that is no name of a model, with the steps behind it.
#[inline(always)]
fn on_first<C: Nested>(
    x: &Engine<'_>,
    units: &ReadyUnits<C>,
    first: &TypedExpr,
    steps: &[TypedStep],
    state: &mut RunState<'_>,
) -> Result<Value, Halt>
    ensures { Runs (rule.on_first (expr_of (x.now, C.means units.now) first.now) (steps_of (x.now, C.means units.now) (nodes.type_of (typed_expr_view first.now)) steps.now) (seen state.old)) result state.new }
{
    on_begun(x, units, first, steps, &note_of(first).answer, state)
}

/// The same by the type of the first part.
#[inline(always)]
#[tactic(auto, unfolding(crate::specs::Lent::all_along))]
fn on_begun<C: Nested>(
    x: &Engine<'_>,
    units: &ReadyUnits<C>,
    first: &TypedExpr,
    steps: &[TypedStep],
    ty: &Option<Ty>,
    state: &mut RunState<'_>,
) -> Result<Value, Halt>
    ensures { Runs (all_along (x.now, C.means units.now) ty.now (all_steps steps.now) (lent.lent_of (typed_expr_view first.now) (all_steps steps.now)) (expr_of (x.now, C.means units.now) first.now) (steps_of (x.now, C.means units.now) ty.now steps.now) (seen state.old)) result state.new }
{
    let (from, value) = begun(x, units, first, steps, ty, state)?;
    steps_from(x, units, steps, ty, from, value, state)
}

/// The name of a model with its steps, of which the first goes with the name.
#[inline(never)]
#[tactic(auto, unfolding(qvt_run_rules::specs::Expressions::on_first))]
fn model_steps<C: Nested>(
    x: &Engine<'_>,
    units: &ReadyUnits<C>,
    all: &[TypedStep],
    steps: &[TypedStep],
    first: &Option<Ty>,
    model: u32,
    place: Place,
    state: &mut RunState<'_>,
) -> Result<Value, Halt>
    ensures { Runs (rule.on_first (by.model_first (spend_of x.now.limit) model place (all_steps all.now)) (drop 1 (steps_of (x.now, C.means units.now) first.now steps.now)) (seen state.old)) result state.new }
{
    let value = model_first(x.alloc, x.limit, model, place, all, state)?;
    steps_from(x, units, steps, first, 1, value, state)
}
