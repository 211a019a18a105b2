//! The closure (OCL 2.4, 11.9.2).

ghost use Rattle.std.specs.Prelude.{◌≡◌, suc};
ghost use Rattle.std.specs.Option.{option_copied};
ghost use Rattle.qvt_run_rules.specs.Cost.{spend_of};
ghost use Rattle.qvt_run_rules.specs.Iterators as each;
ghost use Rattle.qvt_exec_leaves.specs.Runs.{Runs, seen};
ghost use Rattle.qvt_exec_visits.specs.Visited.{rest_of};
ghost use Rattle.qvt_exec_invocations.specs.Means.{barred_in, expr_of, turns_of};

use crate::iterators::for_item;
use crate::sources::Iteration;
use qvt_exec_invocations::engine::Engine;
use qvt_exec_invocations::nested::Nested;
use qvt_exec_invocations::units::ReadyUnits;
use qvt_exec_leaves::state::RunState;
use qvt_exec_loops::steps::{misfit, tick};
use qvt_exec_visits::visits::Visits;
use qvt_run_data::exit::{End, Exit, Halt};
use qvt_types_nodes::tree::TypedExpr;
use qvt_value::value::Value;

/// As many turns as units of fuel.
fn turns_within(limit: Option<u64>) -> u64
    ensures { result ≡ turns_of limit }
{
    match limit {
        None => 0,
        Some(fuel) => fuel,
    }
}

/// The items that are left to visit. Each body costs a unit at least, so no more of them are evaluated than
/// there is fuel, but for the one that would pass it.
#[inline(always)]
fn visit_all<C: Nested>(
    x: &Engine<'_>,
    units: &ReadyUnits<C>,
    body: &TypedExpr,
    it: Iteration<'_>,
    first: Visits,
    state: &mut RunState<'_>,
) -> Result<Value, Halt>
    ensures { Runs (rest_of it.entry.place (each.for_item (option_copied it.entry.name) (expr_of (x.now, C.means units.now) body.now)) (suc (turns_of x.now.limit)) first (seen state.old)) result state.new }
{
    let mut visits = first;
    let mut more = turns_within(x.limit);
    let mut handed = None;
    loop {
        let Some(item) = visits.next() else {
            return visits.finish(x.alloc, it.place);
        };
        let given = for_item(x, units, body, it, &item, &mut handed, state)?;
        if let Some(value) = visits.take(item, given)? {
            return Ok(value);
        }
        let Some(less) = more.checked_sub(1) else {
            return Err(Halt::Exits(Exit::Ends(End::OutOfFuel)));
        };
        more = less;
    }
}

/// A closure over its source.
#[inline(never)]
#[tactic(auto, using(qvt_exec_leaves::proofs::Over::over_coll), unfolding(qvt_run_rules::specs::Iterators::closure))]
fn closed<C: Nested>(
    x: &Engine<'_>,
    units: &ReadyUnits<C>,
    body: &TypedExpr,
    it: Iteration<'_>,
    value: Value,
    state: &mut RunState<'_>,
) -> Result<Value, Halt>
    ensures { Runs (each.closure (spend_of x.now.limit) it.entry.place (option_copied it.entry.name) (expr_of (x.now, C.means units.now) body.now) (turns_of x.now.limit) value (seen state.old)) result state.new }
{
    tick(x.limit, state)?;
    match &value {
        Value::Coll(kind, items) => {
            let visits = Visits::start(x.alloc, *kind, items.as_slice())?;
            visit_all(x, units, body, it, visits, state)
        }
        Value::Invalid(reason, cause) => Ok(Value::Invalid(*reason, *cause)),
        _ => misfit(it.place),
    }
}

/// The same, which no plain expression has.
#[inline(always)]
pub fn closure<C: Nested>(
    x: &Engine<'_>,
    units: &ReadyUnits<C>,
    body: &TypedExpr,
    it: Iteration<'_>,
    value: Value,
    state: &mut RunState<'_>,
) -> Result<Value, Halt>
    ensures { Runs (barred_in x.now.is_plain it.entry.place (each.closure (spend_of x.now.limit) it.entry.place (option_copied it.entry.name) (expr_of (x.now, C.means units.now) body.now) (turns_of x.now.limit) value) (seen state.old)) result state.new }
{
    if x.is_plain {
        return misfit(it.place);
    }
    closed(x, units, body, it, value, state)
}
