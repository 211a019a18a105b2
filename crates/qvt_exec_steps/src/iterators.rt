//! Iterators (OCL 2.4, 7.6 and 11.9).

ghost use Rattle.std.specs.Option.{option_copied};
ghost use Rattle.qvt_run_rules.specs.Cost.{spend_of};
ghost use Rattle.qvt_run_rules.specs.Iterators as each;
ghost use Rattle.qvt_exec_leaves.specs.Runs.{Runs, seen};
ghost use Rattle.qvt_exec_loops.specs.Laws.{by_turns};
ghost use Rattle.qvt_exec_loops.specs.Turns.{rest_of};
ghost use Rattle.qvt_exec_invocations.specs.Means.{expr_of};
ghost use Rattle.qvt_exec_steps.specs.Loops.{iterate_once, iterated_from};

use crate::sources::Iteration;
use qvt_base::copied::Copied;
use qvt_base::text::Text;
use qvt_exec_invocations::engine::Engine;
use qvt_exec_invocations::nested::{Nested, expr};
use qvt_exec_invocations::units::ReadyUnits;
use qvt_exec_leaves::state::RunState;
use qvt_exec_loops::handed::{bind_handed, end_scope};
use qvt_exec_loops::steps::{misfit, tick};
use qvt_exec_loops::turns::Turns;
use qvt_ocl::operands::is_invalid;
use qvt_run_data::exit::Halt;
use qvt_types_nodes::tree::TypedExpr;
use qvt_types_steps::iterators::IteratorKind;
use qvt_value::value::Value;

/// The body for an item. The name of its variable is handed on.
#[inline(never)]
#[tactic(auto, unfolding(qvt_run_rules::specs::Iterators::for_item, qvt_run_rules::specs::Locals::with_locals))]
pub fn for_item<C: Nested>(
    x: &Engine<'_>,
    units: &ReadyUnits<C>,
    body: &TypedExpr,
    it: Iteration<'_>,
    item: &Value,
    handed: &mut Option<Text>,
    state: &mut RunState<'_>,
) -> Result<Value, Halt>
    ensures { Runs (each.for_item (option_copied it.entry.name) (expr_of (x.now, C.means units.now) body.now) item.now (seen state.old)) result state.new }
{
    let depth = state.locals.len();
    let value = item.copy(x.alloc)?;
    bind_handed(x.alloc, state, it.name, handed, value)?;
    let given = expr(x, units, body, state);
    *handed = end_scope(x.alloc, state, depth);
    given
}

/// The items that are left, in their order.
fn each_of<C: Nested>(
    x: &Engine<'_>,
    units: &ReadyUnits<C>,
    body: &TypedExpr,
    it: Iteration<'_>,
    first: Turns,
    items: &[Value],
    state: &mut RunState<'_>,
) -> Result<Value, Halt>
    ensures { Runs (rest_of it.entry.place (each.for_item (option_copied it.entry.name) (expr_of (x.now, C.means units.now) body.now)) first items.now (seen state.old)) result state.new }
{
    let mut turns = first;
    let mut handed = None;
    for item in items {
        let given = for_item(x, units, body, it, item, &mut handed, state)?;
        if let Some(value) = turns.take(x.alloc, it.place, item, given)? {
            return Ok(value);
        }
    }
    turns.finish(x.alloc, it.place)
}

/// The names of the variables of `iterate`, which are handed on.
struct Handed {
    item: Option<Text>,
    so_far: Option<Text>,
}

impl Drop for Handed {
    fn drop(self) {
        let Handed { item, so_far } = self;
    }
}

/// The body of `iterate` for an item and what there is so far. The names of its variables are handed on.
#[inline(never)]
#[tactic(auto, unfolding(qvt_run_rules::specs::Locals::with_locals), using(qvt_exec_loops::proofs::Scopes::cut_twice))]
fn iterate_item<C: Nested>(
    x: &Engine<'_>,
    units: &ReadyUnits<C>,
    body: &TypedExpr,
    it: Iteration<'_>,
    accumulator: &Text,
    so_far: Value,
    item: &Value,
    handed: &mut Handed,
    state: &mut RunState<'_>,
) -> Result<Value, Halt>
    ensures { Runs (iterate_once (option_copied it.entry.name) accumulator.now (expr_of (x.now, C.means units.now) body.now) so_far item.now (seen state.old)) result state.new }
{
    let outer = state.locals.len();
    let value = item.copy(x.alloc)?;
    bind_handed(x.alloc, state, it.name, &mut handed.item, value)?;
    let inner = state.locals.len();
    bind_handed(
        x.alloc,
        state,
        Some(accumulator),
        &mut handed.so_far,
        so_far,
    )?;
    let given = expr(x, units, body, state);
    handed.so_far = end_scope(x.alloc, state, inner);
    handed.item = end_scope(x.alloc, state, outer);
    given
}

/// The turns of `iterate`.
fn iterate_from<C: Nested>(
    x: &Engine<'_>,
    units: &ReadyUnits<C>,
    body: &TypedExpr,
    it: Iteration<'_>,
    accumulator: &Text,
    first: Value,
    items: &[Value],
    state: &mut RunState<'_>,
) -> Result<Value, Halt>
    ensures { Runs (each.iterate_from (option_copied it.entry.name) accumulator.now (expr_of (x.now, C.means units.now) body.now) first items.now (seen state.old)) result state.new }
{
    let mut handed = Handed {
        item: None,
        so_far: None,
    };
    let mut so_far = first;
    for item in items {
        so_far = iterate_item(
            x,
            units,
            body,
            it,
            accumulator,
            so_far,
            item,
            &mut handed,
            state,
        )?;
        if is_invalid(&so_far) {
            return Ok(so_far);
        }
    }
    Ok(so_far)
}

/// `iterate`, whose first value was evaluated whatever the source is.
#[inline(never)]
#[tactic(auto, using(qvt_exec_leaves::proofs::Over::over_coll))]
pub fn iterate<C: Nested>(
    x: &Engine<'_>,
    units: &ReadyUnits<C>,
    body: &TypedExpr,
    it: Iteration<'_>,
    accumulator: &Text,
    first: Value,
    value: Value,
    state: &mut RunState<'_>,
) -> Result<Value, Halt>
    ensures { Runs (iterated_from it.entry.place (option_copied it.entry.name) accumulator.now (expr_of (x.now, C.means units.now) body.now) first value (seen state.old)) result state.new }
{
    match &value {
        Value::Coll(_, items) => {
            if is_invalid(&first) {
                Ok(first)
            } else {
                let items = items.as_slice();
                iterate_from(x, units, body, it, accumulator, first, items, state)
            }
        }
        Value::Invalid(reason, cause) => Ok(Value::Invalid(*reason, *cause)),
        _ => misfit(it.place),
    }
}

/// An iterator over the items of its source in order.
#[inline(never)]
#[tactic(auto, using(qvt_exec_leaves::proofs::Over::over_coll))]
pub fn iterated<C: Nested>(
    x: &Engine<'_>,
    units: &ReadyUnits<C>,
    body: &TypedExpr,
    which: IteratorKind,
    it: Iteration<'_>,
    value: Value,
    state: &mut RunState<'_>,
) -> Result<Value, Halt>
    ensures { Runs (each.iterated (spend_of x.now.limit) it.entry.place (option_copied it.entry.name) (expr_of (x.now, C.means units.now) body.now) (by_turns which it.entry.place (each.for_item (option_copied it.entry.name) (expr_of (x.now, C.means units.now) body.now))) value (seen state.old)) result state.new }
{
    tick(x.limit, state)?;
    match &value {
        Value::Coll(kind, items) => match Turns::start(x.alloc, which, *kind) {
            Some(turns) => each_of(x, units, body, it, turns, items.as_slice(), state),
            None => misfit(it.place),
        },
        Value::Invalid(reason, cause) => Ok(Value::Invalid(*reason, *cause)),
        _ => misfit(it.place),
    }
}
