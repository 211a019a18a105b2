//! Loops (QVT 1.3, 8.2.2.4 WhileExp and 8.2.2.6 ForExp).

ghost use Rattle.std.specs.Prelude.{◌≡◌};
ghost use Rattle.qvt_run_rules.specs.Statements as statement;
ghost use Rattle.qvt_exec_resolves.specs.Nodes as nodes;
ghost use Rattle.qvt_exec_resolves.specs.Phrases as phrase;
ghost use Rattle.qvt_types_nodes.specs.View.{typed_expr_view, typed_optional_type};
ghost use Rattle.qvt_exec_state.specs.Runs.{Runs, seen};
ghost use Rattle.qvt_exec_phrases.specs.Means.{block_of, expr_of, for_each_item, guarded_of, turns_of};
ghost use Rattle.qvt_exec_statements.specs.Items.{over_items};

use crate::conditions::{guarded, turn};
use crate::types::each_type;
use qvt_base::copied::Copied;
use qvt_base::numbers::Place;
use qvt_base::text::Text;
use qvt_exec_leaves::nodes::place_of;
use qvt_exec_moves::items::asked_items;
use qvt_exec_moves::values::valid;
use qvt_exec_moves::variables::bind_typed;
use qvt_exec_phrases::engine::Engine;
use qvt_exec_phrases::nested::{Nested, expr};
use qvt_exec_phrases::units::ReadyUnits;
use qvt_exec_state::state::RunState;
use qvt_run_data::exit::{End, Exit, Halt};
use qvt_types_data::ty::Ty;
use qvt_types_nodes::tree::{TypedExpr, TypedStmts};
use qvt_types_nodes::types::TypedTypeTree;
use qvt_value::value::Value;

/// A `while`. Each turn costs a unit at least, so there are no more turns than fuel.
#[inline(never)]
#[tactic(auto, using(crate::proofs::Turns::one_more, crate::proofs::Turns::none_left))]
pub fn repeat<C: Nested>(
    x: &Engine<'_>,
    units: &ReadyUnits<C>,
    condition: &TypedExpr,
    body: &TypedStmts,
    state: &mut RunState<'_>,
) -> Result<(), Halt>
    ensures { Runs (statement.loop (turns_of x.now.limit) (expr_of (x.now, C.means units.now) condition.now) (nodes.place_of (typed_expr_view condition.now)) (block_of (x.now, C.means units.now) body.now) (seen state.old)) result state.new }
{
    for _ in 0..turns_of(x.limit) {
        if !turn(x, units, condition, body, state)? {
            return Ok(());
        }
    }
    Err(Halt::Exits(Exit::Ends(End::OutOfFuel)))
}

/// As many turns as units of fuel.
fn turns_of(limit: Option<u64>) -> u64
    ensures { result ≡ turns_of limit }
{
    match limit {
        None => 0,
        Some(fuel) => fuel,
    }
}

/// A turn of a `forEach`, with its variable in scope.
#[tactic(auto, unfolding(qvt_run_rules::specs::Statements::for_item, qvt_run_rules::specs::Locals::with_locals))]
fn for_item<C: Nested>(
    x: &Engine<'_>,
    units: &ReadyUnits<C>,
    name: &Text,
    of: &Option<Ty>,
    condition: &Option<Box<TypedExpr>>,
    body: &TypedStmts,
    item: &Value,
    state: &mut RunState<'_>,
) -> Result<(), Halt>
    ensures { Runs (for_each_item (x.now, C.means units.now) name.now of.now condition.now body.now item.now (seen state.old)) result state.new }
{
    let depth = state.locals.len();
    let value = item.copy(x.alloc)?;
    bind_typed(x.alloc, state, name, of.as_ref(), value)?;
    let done = guarded(x, units, condition, body, state);
    state.locals.truncate(depth);
    done
}

/// The items in their order.
fn each_item<C: Nested>(
    x: &Engine<'_>,
    units: &ReadyUnits<C>,
    name: &Text,
    of: &Option<Ty>,
    condition: &Option<Box<TypedExpr>>,
    body: &TypedStmts,
    items: &[Value],
    state: &mut RunState<'_>,
) -> Result<(), Halt>
    ensures { Runs (statement.each_item (for_each_item (x.now, C.means units.now) name.now of.now condition.now body.now) items.now (seen state.old)) result state.new }
{
    for item in items {
        for_item(x, units, name, of, condition, body, item, state)?;
    }
    Ok(())
}

/// The items of a value, which are of the type of the variable, in their order.
#[inline(never)]
fn over_items<C: Nested>(
    x: &Engine<'_>,
    units: &ReadyUnits<C>,
    name: &Text,
    of: &Option<Ty>,
    condition: &Option<Box<TypedExpr>>,
    body: &TypedStmts,
    place: Place,
    value: Value,
    state: &mut RunState<'_>,
) -> Result<(), Halt>
    ensures { Runs (over_items (x.now, C.means units.now) name.now of.now condition.now body.now place value (seen state.old)) result state.new }
{
    let items = asked_items(x.alloc, of.as_ref(), place, value, state)?;
    each_item(x, units, name, of, condition, body, items.as_slice(), state)
}

/// A `forEach`, whose items are taken once.
#[inline(never)]
#[tactic(auto, unfolding(qvt_run_rules::specs::Statements::for_each))]
pub fn for_each<C: Nested>(
    x: &Engine<'_>,
    units: &ReadyUnits<C>,
    source: &TypedExpr,
    name: &Text,
    kind: &Option<TypedTypeTree>,
    condition: &Option<Box<TypedExpr>>,
    body: &TypedStmts,
    state: &mut RunState<'_>,
) -> Result<(), Halt>
    ensures { Runs (statement.for_each (expr_of (x.now, C.means units.now) source.now) (nodes.place_of (typed_expr_view source.now)) name.now (phrase.each_type (typed_optional_type kind.now) (typed_expr_view source.now)) (guarded_of (x.now, C.means units.now) condition.now (block_of (x.now, C.means units.now) body.now)) (seen state.old)) result state.new }
{
    let value = expr(x, units, source, state)?;
    let value = valid(value, state)?;
    let of = each_type(x.alloc, kind, source)?;
    over_items(
        x,
        units,
        name,
        &of,
        condition,
        body,
        place_of(source),
        value,
        state,
    )
}
