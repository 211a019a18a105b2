//! The first steps on a variable, or on what a variable holds, with the source of an operation lent to it.

ghost use Rattle.qvt_types_nodes.specs.View.{typed_expr_view};
ghost use Rattle.qvt_exec_quiet.specs.Lent as lent;
ghost use Rattle.qvt_exec_leaves.specs.Runs.{Runs, seen};
ghost use Rattle.qvt_exec_invocations.specs.Means.{all_steps, expr_of};
ghost use Rattle.qvt_exec_steps.specs.Lent.{args_in, begun_in, done_in, lent_in, lent_steps_in};

use crate::values::values;
use qvt_exec_invocations::engine::Engine;
use qvt_exec_invocations::nested::{Nested, expr, program};
use qvt_exec_invocations::units::ReadyUnits;
use qvt_exec_leaves::state::RunState;
use qvt_exec_lent::given::given_of;
use qvt_exec_lent::sources::{charged, source_there};
use qvt_exec_loops::steps::tick;
use qvt_exec_quiet::lent::{Lent, lent_of, steps_up_to};
use qvt_run_data::exit::Halt;
use qvt_types_data::ty::Ty;
use qvt_types_nodes::tree::{TypedExpr, TypedStep};
use qvt_value::value::{Value, Values};

/// The arguments of the operation, behind the units of its source and of the step.
#[inline(always)]
#[tactic(auto, unfolding(qvt_exec_phrases::specs::Means::exprs_of))]
fn args_of<C: Nested>(
    x: &Engine<'_>,
    units: &ReadyUnits<C>,
    l: &Lent<'_>,
    state: &mut RunState<'_>,
) -> Result<Values, Halt>
    ensures { Runs (args_in (x.now, C.means units.now) (lent.lent_view l.now) (seen state.old)) result state.new }
{
    charged(x.limit, &l.source, state)?;
    source_there(&l.source, state)?;
    tick(x.limit, state)?;
    values(x, units, l.args, state)
}

/// What the operation gives of its source.
#[inline(always)]
#[tactic(auto, unfolding(crate::specs::Lent::lent_in))]
fn on_lent<C: Nested>(
    x: &Engine<'_>,
    units: &ReadyUnits<C>,
    ty: &Option<Ty>,
    steps: &[TypedStep],
    l: &Lent<'_>,
    state: &mut RunState<'_>,
) -> Result<Value, Halt>
    ensures { Runs (lent_in (x.now, C.means units.now) ty.now (all_steps steps.now) (lent.lent_view l.now) (seen state.old)) result state.new }
{
    let args = args_of(x, units, l, state)?;
    let program = program(units);
    given_of(x.alloc, program, ty, steps, l, args.as_slice(), state)
}

/// How many of the steps are done with the operation, and the value behind them.
#[inline(always)]
fn with_done<C: Nested>(
    x: &Engine<'_>,
    units: &ReadyUnits<C>,
    ty: &Option<Ty>,
    steps: &[TypedStep],
    l: &Lent<'_>,
    state: &mut RunState<'_>,
) -> Result<Option<(usize, Value)>, Halt>
    ensures { Runs (done_in (x.now, C.means units.now) ty.now (all_steps steps.now) (lent.lent_view l.now) (seen state.old)) result state.new }
{
    let value = on_lent(x, units, ty, steps, l, state)?;
    Ok(Some((steps_up_to(&l.source), value)))
}

/// How many of the steps are done where the source of an operation is lent, and the value behind them.
#[inline(never)]
#[tactic(auto, unfolding(crate::specs::Lent::lent_steps_in, crate::specs::Lent::lent_in))]
fn on_source<C: Nested>(
    x: &Engine<'_>,
    units: &ReadyUnits<C>,
    first: &TypedExpr,
    steps: &[TypedStep],
    ty: &Option<Ty>,
    state: &mut RunState<'_>,
) -> Result<Option<(usize, Value)>, Halt>
    ensures { Runs (lent_steps_in (x.now, C.means units.now) ty.now (all_steps steps.now) (lent.lent_of (typed_expr_view first.now) (all_steps steps.now)) (seen state.old)) result state.new }
{
    match lent_of(first, steps) {
        Some(l) => with_done(x, units, ty, steps, &l, state),
        None => Ok(None),
    }
}

/// The first part with the steps up to an operation whose source is lent, or the first part alone: how many of the steps are
/// done, and the value behind them.
#[inline(always)]
#[tactic(auto, unfolding(crate::specs::Lent::begun_in))]
pub fn begun<C: Nested>(
    x: &Engine<'_>,
    units: &ReadyUnits<C>,
    first: &TypedExpr,
    steps: &[TypedStep],
    ty: &Option<Ty>,
    state: &mut RunState<'_>,
) -> Result<(usize, Value), Halt>
    ensures { Runs (begun_in (x.now, C.means units.now) ty.now (all_steps steps.now) (lent.lent_of (typed_expr_view first.now) (all_steps steps.now)) (expr_of (x.now, C.means units.now) first.now) (seen state.old)) result state.new }
{
    match on_source(x, units, first, steps, ty, state)? {
        Some(done) => Ok(done),
        None => {
            let value = expr(x, units, first, state)?;
            Ok((0, value))
        }
    }
}
