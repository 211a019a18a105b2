//! Statements that take the value of an expression: declarations, `return`, and expressions alone (QVT 1.3,
//! 8.2.2).

ghost use Rattle.std.specs.Prelude.{option_map};
ghost use Rattle.qvt_run_rules.specs.Statements as statement;
ghost use Rattle.qvt_exec_resolves.specs.Nodes as nodes;
ghost use Rattle.qvt_exec_resolves.specs.Phrases as phrase;
ghost use Rattle.qvt_types_nodes.specs.View.{typed_expr_view, typed_optional_expr, typed_optional_type};
ghost use Rattle.qvt_exec_state.specs.Runs.{Runs, seen};
ghost use Rattle.qvt_exec_phrases.specs.Means.{expr_of, optional_of, return_of};

use crate::types::{optional_place, variable_type};
use qvt_base::numbers::Place;
use qvt_base::text::Text;
use qvt_exec_leaves::nodes::place_of;
use qvt_exec_moves::values::give_back;
use qvt_exec_moves::variables::declare;
use qvt_exec_phrases::engine::Engine;
use qvt_exec_phrases::nested::{Nested, expr};
use qvt_exec_phrases::units::ReadyUnits;
use qvt_exec_state::state::RunState;
use qvt_run_data::exit::{Exit, Halt};
use qvt_types_nodes::tree::TypedExpr;
use qvt_types_nodes::types::TypedTypeTree;
use qvt_value::value::Value;

/// A value that may be missing is null.
#[tactic(auto, unfolding(qvt_exec_phrases::specs::Means::optional_of, qvt_exec_phrases::specs::Means::expr_of, qvt_meaning::specs::Phrases::optional))]
fn optional<C: Nested>(
    x: &Engine<'_>,
    units: &ReadyUnits<C>,
    node: &Option<TypedExpr>,
    state: &mut RunState<'_>,
) -> Result<Value, Halt>
    ensures { Runs (optional_of (x.now, C.means units.now) node.now (seen state.old)) result state.new }
{
    match node {
        None => Ok(Value::Null),
        Some(node) => expr(x, units, node, state),
    }
}

/// The declaration of a variable.
#[inline(never)]
#[tactic(auto, unfolding(qvt_run_rules::specs::Statements::declare))]
pub fn variable<C: Nested>(
    x: &Engine<'_>,
    units: &ReadyUnits<C>,
    name: &Text,
    kind: &Option<TypedTypeTree>,
    value: &Option<TypedExpr>,
    place: Place,
    state: &mut RunState<'_>,
) -> Result<(), Halt>
    ensures { Runs (statement.declare name.now (phrase.variable_type (typed_optional_type kind.now) (typed_optional_expr (option_map typed_expr_view value.now))) (optional_of (x.now, C.means units.now) value.now) (nodes.optional_place place (typed_optional_expr (option_map typed_expr_view value.now))) (seen state.old)) result state.new }
{
    let first = optional(x, units, value, state)?;
    let of = variable_type(kind, value);
    declare(
        x.alloc,
        name,
        of,
        optional_place(place, value),
        first,
        state,
    )
}

/// What a `return` gives back to its unit.
#[inline(never)]
#[tactic(auto, unfolding(qvt_exec_phrases::specs::Means::return_of, qvt_exec_phrases::specs::Means::expr_of, qvt_meaning::specs::Phrases::return_, qvt_run_rules::specs::Statements::give_back, qvt_run_rules::specs::Statements::go_back))]
pub fn give<C: Nested>(
    x: &Engine<'_>,
    units: &ReadyUnits<C>,
    node: &Option<TypedExpr>,
    state: &mut RunState<'_>,
) -> Result<(), Halt>
    ensures { Runs (return_of (x.now, C.means units.now) node.now (seen state.old)) result state.new }
{
    match node {
        None => Err(Halt::Exits(Exit::Returned(None))),
        Some(node) => {
            let value = expr(x, units, node, state)?;
            give_back(x.answer.as_ref(), place_of(node), value, state)
        }
    }
}

/// An expression whose value is dropped.
#[inline(never)]
#[tactic(auto, unfolding(qvt_run_rules::specs::Statements::discard))]
pub fn discard<C: Nested>(
    x: &Engine<'_>,
    units: &ReadyUnits<C>,
    node: &TypedExpr,
    state: &mut RunState<'_>,
) -> Result<(), Halt>
    ensures { Runs (statement.discard (expr_of (x.now, C.means units.now) node.now) (seen state.old)) result state.new }
{
    let _value = expr(x, units, node, state)?;
    Ok(())
}
