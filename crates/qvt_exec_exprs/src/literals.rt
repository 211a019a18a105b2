//! Collection literals (OCL 2.4, 7.5.11).

ghost use Rattle.qvt_run_rules.specs.Cost.{spend_of};
ghost use Rattle.qvt_run_rules.specs.Expressions as rule;
ghost use Rattle.qvt_exec_state.specs.Runs.{Runs, seen};
ghost use Rattle.qvt_exec_steps.specs.Means.{item_of, items_of};
ghost use Rattle.qvt_exec_exprs.specs.Gathering.{Gathers, gathered_in};

use crate::items::{put_one, put_range};
use qvt_base::numbers::Place;
use qvt_exec_state::state::RunState;
use qvt_exec_state::steps::tick;
use qvt_exec_steps::engine::Engine;
use qvt_exec_steps::nested::{Nested, expr};
use qvt_exec_steps::units::ReadyUnits;
use qvt_exec_words::literals::Gathered;
use qvt_run_data::exit::Halt;
use qvt_types_nodes::tree::TypedItem;
use qvt_value::value::{Kind, Value};

/// An item of a collection literal.
#[tactic(auto, unfolding(qvt_exec_phrases::specs::Means::item_of, qvt_exec_phrases::specs::Means::expr_of, qvt_meaning::specs::Phrases::item, qvt_meaning::specs::Phrases::item_to, qvt_run_rules::specs::Expressions::item, qvt_run_rules::specs::Expressions::range))]
fn item<C: Nested>(
    x: &Engine<'_>,
    units: &ReadyUnits<C>,
    node: &TypedItem,
    gathered: &mut Gathered,
    state: &mut RunState<'_>,
) -> Result<(), Halt>
    ensures { Gathers (item_of (x.now, C.means units.now) node.now (seen state.old)) gathered.old gathered.new result state.new }
{
    let first = expr(x, units, &node.first, state)?;
    match &node.last {
        None => put_one(x.alloc, gathered, first, state),
        Some(end) => {
            let last = expr(x, units, &end.last, state)?;
            put_range(x.alloc, gathered, end.place, &first, &last, state)
        }
    }
}

/// The collection of all items.
#[tactic(auto, using(crate::proofs::Lists::gathering_none))]
fn collected<C: Nested>(
    x: &Engine<'_>,
    units: &ReadyUnits<C>,
    nodes: &[TypedItem],
    kind: Kind,
    place: Place,
    state: &mut RunState<'_>,
) -> Result<Value, Halt>
    ensures { Runs (gathered_in kind (items_of (x.now, C.means units.now) nodes.now) place (seen state.old)) result state.new }
{
    let mut gathered = Gathered::new(x.alloc, kind);
    for node in nodes {
        item(x, units, node, &mut gathered, state)?;
    }
    Ok(gathered.into_value(x.alloc, place)?)
}

/// A collection literal.
#[inline(never)]
#[tactic(auto, unfolding(qvt_run_rules::specs::Expressions::collected))]
pub fn collection<C: Nested>(
    x: &Engine<'_>,
    units: &ReadyUnits<C>,
    nodes: &[TypedItem],
    kind: Kind,
    place: &Place,
    state: &mut RunState<'_>,
) -> Result<Value, Halt>
    ensures { Runs (rule.collected (spend_of x.now.limit) kind (items_of (x.now, C.means units.now) nodes.now) place.now (seen state.old)) result state.new }
{
    tick(x.limit, state)?;
    collected(x, units, nodes, kind, *place, state)
}
