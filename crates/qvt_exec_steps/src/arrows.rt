//! Steps behind an arrow.

ghost use Rattle.std.specs.Prelude.{map};
ghost use Rattle.std.specs.Option.{option_copied};
ghost use Rattle.qvt_run_rules.specs.Cost.{spend_of};
ghost use Rattle.qvt_run_rules.specs.Iterators as each;
ghost use Rattle.qvt_types_nodes.specs.View.{typed_expr_view, typed_exprs_of};
ghost use Rattle.qvt_exec_types.specs.Nodes as nodes;
ghost use Rattle.qvt_exec_types.specs.Readings as by;
ghost use Rattle.qvt_exec_leaves.specs.Runs.{Runs, seen};
ghost use Rattle.qvt_exec_invocations.specs.Means.{expr_of, exprs_of, head_of, setting_of};
ghost use Rattle.qvt_exec_steps.specs.Loops.{named_alone};

use crate::closures::closure;
use crate::iterators::{iterate, iterated};
use crate::operations::operation_by;
use crate::sources::Iteration;
use qvt_base::numbers::Place;
use qvt_base::text::Text;
use qvt_exec_invocations::engine::Engine;
use qvt_exec_invocations::nested::{Nested, expr};
use qvt_exec_invocations::units::ReadyUnits;
use qvt_exec_leaves::nodes::{class_argument, iterates, name_in};
use qvt_exec_leaves::state::RunState;
use qvt_exec_leaves::steps::selection;
use qvt_exec_loops::steps::{misfit, tick};
use qvt_run_data::exit::Halt;
use qvt_types_nodes::tree::{TypedExpr, TypedHead};
use qvt_types_steps::classes::is_selection;
use qvt_types_steps::iterators::{IteratorKind, iterator_named};
use qvt_value::value::Value;

/// An iterator without an accumulator.
#[inline(always)]
fn iterator<C: Nested>(
    x: &Engine<'_>,
    units: &ReadyUnits<C>,
    body: &TypedExpr,
    which: IteratorKind,
    it: Iteration<'_>,
    value: Value,
    state: &mut RunState<'_>,
) -> Result<Value, Halt>
    ensures { Runs (by.iterator_by (setting_of (x.now, C.means units.now)) which (named_alone (option_copied it.entry.name)) (expr_of (x.now, C.means units.now) body.now) it.entry.place value (seen state.old)) result state.new }
{
    match which {
        IteratorKind::Closure => closure(x, units, body, it, value, state),
        IteratorKind::Iterate => misfit(it.place),
        _ => iterated(x, units, body, which, it, value, state),
    }
}

/// A step that has no accumulator, on the collection that it goes over.
#[inline(always)]
#[tactic(auto, using(crate::proofs::Args::no_body), unfolding(qvt_exec_phrases::specs::Means::exprs_of, qvt_exec_phrases::specs::Means::expr_of, qvt_meaning::specs::Phrases::exprs))]
fn arrow_on<C: Nested>(
    x: &Engine<'_>,
    units: &ReadyUnits<C>,
    args: &[TypedExpr],
    name: &Text,
    it: Iteration<'_>,
    value: Value,
    state: &mut RunState<'_>,
) -> Result<Value, Halt>
    ensures { Runs (by.arrow_on (setting_of (x.now, C.means units.now)) name.now (named_alone (option_copied it.entry.name)) (exprs_of (x.now, C.means units.now) args.now) (nodes.class_argument (typed_exprs_of (map typed_expr_view args.now))) it.entry.place value (seen state.old)) result state.new }
{
    if is_selection(name.as_str()) {
        let class = class_argument(args);
        return selection(x.alloc, x.limit, name, class, it.place, value, state);
    }
    match iterator_named(name.as_str()) {
        Some(which) => match args {
            [] => misfit(it.place),
            [body] => iterator(x, units, body, which, it, value, state),
            [_, _, ..] => misfit(it.place),
        },
        None => operation_by(x, units, args, name, false, it.place, value, state),
    }
}

/// `iterate` with its accumulator, whose first value is evaluated whatever the source is.
#[inline(never)]
#[tactic(auto, unfolding(qvt_run_rules::specs::Iterators::iterate))]
fn accumulated<C: Nested>(
    x: &Engine<'_>,
    units: &ReadyUnits<C>,
    body: &TypedExpr,
    it: Iteration<'_>,
    accumulator: &Text,
    first: &TypedExpr,
    value: Value,
    state: &mut RunState<'_>,
) -> Result<Value, Halt>
    ensures { Runs (each.iterate (spend_of x.now.limit) it.entry.place (option_copied it.entry.name) (expr_of (x.now, C.means units.now) body.now) accumulator.now (expr_of (x.now, C.means units.now) first.now) value (seen state.old)) result state.new }
{
    tick(x.limit, state)?;
    let first = expr(x, units, first, state)?;
    iterate(x, units, body, it, accumulator, first, value, state)
}

/// `iterate`.
#[inline(always)]
fn iterate_by<C: Nested>(
    x: &Engine<'_>,
    units: &ReadyUnits<C>,
    body: &TypedExpr,
    head: &Option<TypedHead>,
    place: Place,
    value: Value,
    state: &mut RunState<'_>,
) -> Result<Value, Halt>
    ensures { Runs (by.iterate_by (setting_of (x.now, C.means units.now)) (head_of (x.now, C.means units.now) head.now) (expr_of (x.now, C.means units.now) body.now) place (head_of (x.now, C.means units.now) head.now).accumulator value (seen state.old)) result state.new }
{
    let it = Iteration {
        name: name_in(head),
        place,
    };
    match head {
        None => misfit(place),
        Some(head) => match &head.accumulator {
            None => misfit(place),
            Some(accumulator) => {
                let name = &accumulator.name;
                accumulated(x, units, body, it, name, &accumulator.first, value, state)
            }
        },
    }
}

/// A step on the collection that it goes over.
#[inline(always)]
pub fn arrow<C: Nested>(
    x: &Engine<'_>,
    units: &ReadyUnits<C>,
    name: &Text,
    head: &Option<TypedHead>,
    args: &[TypedExpr],
    place: Place,
    value: Value,
    state: &mut RunState<'_>,
) -> Result<Value, Halt>
    ensures { Runs (by.arrow_on (setting_of (x.now, C.means units.now)) name.now (head_of (x.now, C.means units.now) head.now) (exprs_of (x.now, C.means units.now) args.now) (nodes.class_argument (typed_exprs_of (map typed_expr_view args.now))) place value (seen state.old)) result state.new }
{
    if !iterates(name.as_str()) {
        let it = Iteration {
            name: name_in(head),
            place,
        };
        return arrow_on(x, units, args, name, it, value, state);
    }
    match args {
        [] => misfit(place),
        [body] => iterate_by(x, units, body, head, place, value, state),
        [_, _, ..] => misfit(place),
    }
}
