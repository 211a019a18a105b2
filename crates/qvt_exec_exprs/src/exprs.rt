//! Expressions (OCL 2.4, 7; QVT 1.3, 8.2).

ghost use Rattle.qvt_exec_state.specs.Runs.{Runs, seen};
ghost use Rattle.qvt_exec_steps.specs.Means.{expr_of, map_alone_of};

use crate::conditionals::conditional;
use crate::leaves::{boolean, integer, name, null, text, variable};
use crate::literals::collection;
use crate::operands::{chain, signed};
pub use crate::stack::{bytes_of, left_behind};
use qvt_exec_state::names::{RESULT_NAME, SELF_NAME};
use qvt_exec_state::state::RunState;
use qvt_exec_steps::calls::{call_alone, new_by};
use qvt_exec_steps::engine::Engine;
use qvt_exec_steps::nested::Nested;
use qvt_exec_steps::objects::object_barred;
use qvt_exec_steps::posts::post;
use qvt_exec_steps::resolves::resolve_alone;
use qvt_exec_steps::units::ReadyUnits;
use qvt_run_data::exit::Halt;
use qvt_types_data::kinds::kind_of;
use qvt_types_nodes::tree::{TypedExpr, TypedMapCall};
use qvt_value::value::Value;

/// A mapping on the implicit source, or without a context.
#[inline(never)]
#[tactic(auto, unfolding(qvt_exec_phrases::specs::Means::map_alone_of, qvt_exec_phrases::specs::Means::exprs_of, qvt_meaning::specs::Phrases::map_alone))]
fn map_alone<C: Nested>(
    x: &Engine<'_>,
    units: &ReadyUnits<C>,
    node: &TypedMapCall,
    state: &mut RunState<'_>,
) -> Result<Value, Halt>
    ensures { Runs (map_alone_of (x.now, C.means units.now) node.now (seen state.old)) result state.new }
{
    call_alone(
        x,
        units,
        node.args.as_slice(),
        &node.note,
        node.strict,
        &node.place,
        state,
    )
}

/// What an expression gives, by its rule over what its parts give.
#[inline(always)]
#[tactic(auto, unfolding(qvt_exec_phrases::specs::Means::expr_of, qvt_exec_phrases::specs::Means::exprs_of, qvt_exec_phrases::specs::Means::items_of, qvt_exec_phrases::specs::Means::links_of, qvt_exec_phrases::specs::Means::steps_of, qvt_exec_phrases::specs::Means::stmts_of, qvt_exec_phrases::specs::Means::map_alone_of, qvt_meaning::specs::Phrases::expr))]
pub fn expression<C: Nested>(
    x: &Engine<'_>,
    units: &ReadyUnits<C>,
    node: &TypedExpr,
    state: &mut RunState<'_>,
) -> Result<Value, Halt>
    ensures { Runs (expr_of (x.now, C.means units.now) node.now (seen state.old)) result state.new }
{
    match node {
        TypedExpr::Int { value, .. } => integer(x, *value, state),
        TypedExpr::Str { value, .. } => text(x, value, state),
        TypedExpr::Bool { value, .. } => boolean(x, *value, state),
        TypedExpr::Null { .. } => null(x, state),
        TypedExpr::SelfRef { place, .. } => variable(x, SELF_NAME, place, state),
        TypedExpr::ResultRef { place, .. } => variable(x, RESULT_NAME, place, state),
        TypedExpr::Path(path) => name(x, path, state),
        TypedExpr::Call {
            args,
            place,
            note,
            ..
        } => call_alone(x, units, args.as_slice(), note, false, place, state),
        TypedExpr::Coll {
            kind,
            items,
            place,
            ..
        } => collection(x, units, items.as_slice(), kind_of(*kind), place, state),
        TypedExpr::If {
            condition,
            yes,
            no,
            ..
        } => conditional(x, units, condition, yes, no, state),
        TypedExpr::Object {
            variable,
            body,
            place,
            note,
            ..
        } => object_barred(x, units, body, variable, note, place, state),
        TypedExpr::New {
            args,
            place,
            note,
            ..
        } => new_by(x, units, args.as_slice(), &note.reading, place, state),
        TypedExpr::Map(call) => map_alone(x, units, call, state),
        TypedExpr::Resolve(call) => resolve_alone(x, units, call, state),
        TypedExpr::Chain { first, rest, .. } => chain(x, units, first, rest.as_slice(), state),
        TypedExpr::Prefix { signs, operand, .. } => signed(
            x,
            units,
            operand,
            signs.as_slice(),
            state,
        ),
        TypedExpr::Post {
            first,
            steps,
            place,
            ..
        } => {
            let steps = steps.as_slice();
            post(x, units, first, steps, steps, place, state)
        }
    }
}
