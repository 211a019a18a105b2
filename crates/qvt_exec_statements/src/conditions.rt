//! Conditions, and what is done where they are true (QVT 1.3, 8.2.2.8 SwitchExp).

ghost use Rattle.qvt_run_rules.specs.Statements as statement;
ghost use Rattle.qvt_exec_resolves.specs.Nodes as nodes;
ghost use Rattle.qvt_types_nodes.specs.View.{typed_arm_view, typed_expr_view};
ghost use Rattle.qvt_exec_state.specs.Runs.{Runs, seen};
ghost use Rattle.qvt_exec_phrases.specs.Means.{arms_of, block_of, expr_of, guarded_of, holds_of, otherwise_of};
ghost use Rattle.qvt_exec_statements.specs.Arms.{arm_turn, if_true};

use qvt_exec_leaves::nodes::place_of;
use qvt_exec_moves::values::truth;
use qvt_exec_phrases::engine::Engine;
use qvt_exec_phrases::nested::{Nested, block, expr};
use qvt_exec_phrases::units::ReadyUnits;
use qvt_exec_state::state::RunState;
use qvt_run_data::exit::Halt;
use qvt_types_nodes::tree::{TypedArm, TypedExpr, TypedStmts};

/// Whether a condition is true.
#[inline(always)]
pub fn holds<C: Nested>(
    x: &Engine<'_>,
    units: &ReadyUnits<C>,
    node: &TypedExpr,
    state: &mut RunState<'_>,
) -> Result<bool, Halt>
    ensures { Runs (holds_of (x.now, C.means units.now) node.now (seen state.old)) result state.new }
{
    let test = expr(x, units, node, state)?;
    truth(place_of(node), &test, state)
}

/// A block where a condition is true: whether it was.
#[inline(never)]
#[tactic(auto, unfolding(qvt_run_rules::specs::Statements::turn))]
pub(crate) fn turn<C: Nested>(
    x: &Engine<'_>,
    units: &ReadyUnits<C>,
    condition: &TypedExpr,
    body: &TypedStmts,
    state: &mut RunState<'_>,
) -> Result<bool, Halt>
    ensures { Runs (statement.turn (expr_of (x.now, C.means units.now) condition.now) (nodes.place_of (typed_expr_view condition.now)) (block_of (x.now, C.means units.now) body.now) (seen state.old)) result state.new }
{
    if !holds(x, units, condition, state)? {
        return Ok(false);
    }
    block(x, units, body, state)?;
    Ok(true)
}

/// A block where a condition is true, and nothing where it is not.
#[inline(always)]
#[tactic(auto, unfolding(qvt_run_rules::specs::Statements::branch))]
fn if_true<C: Nested>(
    x: &Engine<'_>,
    units: &ReadyUnits<C>,
    condition: &TypedExpr,
    body: &TypedStmts,
    state: &mut RunState<'_>,
) -> Result<(), Halt>
    ensures { Runs (if_true (x.now, C.means units.now) condition.now body.now (seen state.old)) result state.new }
{
    if holds(x, units, condition, state)? {
        return block(x, units, body, state);
    }
    Ok(())
}

/// The body of a `forEach` where its condition is true.
#[tactic(auto, unfolding(qvt_exec_phrases::specs::Means::guarded_of, qvt_exec_phrases::specs::Means::expr_of, qvt_meaning::specs::Phrases::guarded))]
pub(crate) fn guarded<C: Nested>(
    x: &Engine<'_>,
    units: &ReadyUnits<C>,
    condition: &Option<Box<TypedExpr>>,
    body: &TypedStmts,
    state: &mut RunState<'_>,
) -> Result<(), Halt>
    ensures { Runs (guarded_of (x.now, C.means units.now) condition.now (block_of (x.now, C.means units.now) body.now) (seen state.old)) result state.new }
{
    match condition {
        None => block(x, units, body, state),
        Some(condition) => if_true(x, units, condition, body, state),
    }
}

/// What stands last in an `if`.
#[tactic(auto, unfolding(qvt_exec_phrases::specs::Means::otherwise_of, qvt_exec_phrases::specs::Means::stmts_of, qvt_meaning::specs::Phrases::otherwise))]
fn otherwise<C: Nested>(
    x: &Engine<'_>,
    units: &ReadyUnits<C>,
    body: &Option<TypedStmts>,
    state: &mut RunState<'_>,
) -> Result<(), Halt>
    ensures { Runs (otherwise_of (x.now, C.means units.now) body.now (seen state.old)) result state.new }
{
    match body {
        None => Ok(()),
        Some(body) => block(x, units, body, state),
    }
}

/// An arm: whether its condition was true.
#[tactic(auto, unfolding(qvt_exec_phrases::specs::Means::expr_of, qvt_exec_phrases::specs::Means::stmts_of))]
fn arm<C: Nested>(
    x: &Engine<'_>,
    units: &ReadyUnits<C>,
    node: &TypedArm,
    state: &mut RunState<'_>,
) -> Result<bool, Halt>
    ensures { Runs (arm_turn (x.now, C.means units.now) (typed_arm_view node.now) (seen state.old)) result state.new }
{
    turn(x, units, &node.condition, &node.body, state)
}

/// The first arm whose condition is true, or else what stands last.
#[inline(always)]
fn arms<C: Nested>(
    x: &Engine<'_>,
    units: &ReadyUnits<C>,
    nodes: &[TypedArm],
    last: &Option<TypedStmts>,
    state: &mut RunState<'_>,
) -> Result<(), Halt>
    ensures { Runs (arms_of (x.now, C.means units.now) nodes.now (otherwise_of (x.now, C.means units.now) last.now) (seen state.old)) result state.new }
{
    for node in nodes {
        if arm(x, units, node, state)? {
            return Ok(());
        }
    }
    otherwise(x, units, last, state)
}

/// An `if` with its arms.
#[inline(never)]
#[tactic(auto, unfolding(qvt_run_rules::specs::Statements::branch))]
pub fn branch<C: Nested>(
    x: &Engine<'_>,
    units: &ReadyUnits<C>,
    condition: &TypedExpr,
    body: &TypedStmts,
    more: &[TypedArm],
    last: &Option<TypedStmts>,
    state: &mut RunState<'_>,
) -> Result<(), Halt>
    ensures { Runs (statement.branch (expr_of (x.now, C.means units.now) condition.now) (nodes.place_of (typed_expr_view condition.now)) (block_of (x.now, C.means units.now) body.now) (arms_of (x.now, C.means units.now) more.now (otherwise_of (x.now, C.means units.now) last.now)) (seen state.old)) result state.new }
{
    if holds(x, units, condition, state)? {
        return block(x, units, body, state);
    }
    arms(x, units, more, last, state)
}
