//! Operands with operators between them, or signs before them (OCL 2.4, 7.4.7).

ghost use Rattle.std.specs.Prelude.{length};
ghost use Rattle.qvt_meaning.specs.Readings as by;
ghost use Rattle.qvt_run_rules.specs.Cost.{spend_of};
ghost use Rattle.qvt_run_rules.specs.Expressions as rule;
ghost use Rattle.qvt_exec_state.specs.Runs.{Runs, seen};
ghost use Rattle.qvt_exec_leaves.specs.Signs.{signed_by};
ghost use Rattle.qvt_exec_steps.specs.Means.{expr_of, link_of, links_of, setting_of};
ghost use Rattle.qvt_exec_exprs.specs.Charged.{charged_first};

use crate::numbers::in_numbers;
use qvt_exec_leaves::applied::{applied_to, operation_of, signs_on, worded};
use qvt_exec_leaves::names::ticks;
use qvt_exec_state::state::RunState;
use qvt_exec_state::steps::tick;
use qvt_exec_steps::engine::Engine;
use qvt_exec_steps::nested::{Nested, expr};
use qvt_exec_steps::units::ReadyUnits;
use qvt_exec_words::logic::by_left;
use qvt_ocl_words::op::Op;
use qvt_run_data::exit::Halt;
use qvt_types_nodes::tree::{TypedExpr, TypedLink};
use qvt_types_nodes::types::TypedSign;
use qvt_value::value::Value;

/// An operator on what stands before it and its operand.
#[inline(never)]
#[tactic(auto, unfolding(qvt_run_rules::specs::Expressions::operated))]
fn operated<C: Nested>(
    x: &Engine<'_>,
    units: &ReadyUnits<C>,
    node: &TypedLink,
    op: Op,
    left: Value,
    state: &mut RunState<'_>,
) -> Result<Value, Halt>
    ensures { Runs (rule.operated (spend_of x.now.limit) op (expr_of (x.now, C.means units.now) node.now.operand) node.now.place left (seen state.old)) result state.new }
{
    tick(x.limit, state)?;
    let args = [expr(x, units, &node.operand, state)?];
    applied_to(x.alloc, op, &args, node.place, left, state)
}

/// A word of logic, which may know its value before its right side: that is then not evaluated.
#[inline(never)]
#[tactic(auto, unfolding(qvt_run_rules::specs::Expressions::logical))]
fn logical<C: Nested>(
    x: &Engine<'_>,
    units: &ReadyUnits<C>,
    node: &TypedLink,
    left: Value,
    state: &mut RunState<'_>,
) -> Result<Value, Halt>
    ensures { Runs (rule.logical (spend_of x.now.limit) node.now.op (expr_of (x.now, C.means units.now) node.now.operand) node.now.place left (seen state.old)) result state.new }
{
    tick(x.limit, state)?;
    if let Some(value) = by_left(node.op, &left) {
        return Ok(value);
    }
    let right = expr(x, units, &node.operand, state)?;
    worded(node.op, left, right, node.place, state)
}

/// A further operand of a chain.
#[inline(always)]
#[tactic(auto, unfolding(qvt_exec_phrases::specs::Means::link_of, qvt_exec_phrases::specs::Means::expr_of, qvt_meaning::specs::Phrases::link))]
fn link<C: Nested>(
    x: &Engine<'_>,
    units: &ReadyUnits<C>,
    node: &TypedLink,
    left: Value,
    state: &mut RunState<'_>,
) -> Result<Value, Halt>
    ensures { Runs (link_of (x.now, C.means units.now) node.now left (seen state.old)) result state.new }
{
    match operation_of(node.op) {
        Some(op) => operated(x, units, node, op, left, state),
        None => logical(x, units, node, left, state),
    }
}

/// The further operands of a chain.
#[tactic(auto, unfolding(qvt_exec_phrases::specs::Means::links_of, qvt_exec_phrases::specs::Means::link_of, qvt_meaning::specs::Phrases::links))]
fn links<C: Nested>(
    x: &Engine<'_>,
    units: &ReadyUnits<C>,
    nodes: &[TypedLink],
    left: Value,
    state: &mut RunState<'_>,
) -> Result<Value, Halt>
    ensures { Runs (rule.along left (links_of (x.now, C.means units.now) nodes.now) (seen state.old)) result state.new }
{
    let mut value = left;
    for node in nodes {
        value = link(x, units, node, value, state)?;
    }
    Ok(value)
}

/// A chain of operands, each of which is a phrase of its own.
#[inline(always)]
#[tactic(auto, unfolding(qvt_run_rules::specs::Expressions::on_first))]
fn chain_of_phrases<C: Nested>(
    x: &Engine<'_>,
    units: &ReadyUnits<C>,
    first: &TypedExpr,
    rest: &[TypedLink],
    state: &mut RunState<'_>,
) -> Result<Value, Halt>
    ensures { Runs (rule.on_first (expr_of (x.now, C.means units.now) first.now) (links_of (x.now, C.means units.now) rest.now) (seen state.old)) result state.new }
{
    let value = expr(x, units, first, state)?;
    links(x, units, rest, value, state)
}

/// A chain of operands.
#[inline(never)]
pub fn chain<C: Nested>(
    x: &Engine<'_>,
    units: &ReadyUnits<C>,
    first: &TypedExpr,
    rest: &[TypedLink],
    state: &mut RunState<'_>,
) -> Result<Value, Halt>
    ensures { Runs (rule.on_first (expr_of (x.now, C.means units.now) first.now) (links_of (x.now, C.means units.now) rest.now) (seen state.old)) result state.new }
{
    match in_numbers(x, first, rest, state) {
        Some(value) => Ok(value),
        None => chain_of_phrases(x, units, first, rest, state),
    }
}

/// An operand with signs before it: the outer sign is met first, and so all are charged before the operand.
fn prefixed<C: Nested>(
    x: &Engine<'_>,
    units: &ReadyUnits<C>,
    operand: &TypedExpr,
    signs: &[TypedSign],
    state: &mut RunState<'_>,
) -> Result<Value, Halt>
    ensures { Runs (charged_first x.now.limit (length signs.now) (expr_of (x.now, C.means units.now) operand.now) (signed_by signs.now) (seen state.old)) result state.new }
{
    ticks(x.limit, signs.len(), state)?;
    let value = expr(x, units, operand, state)?;
    signs_on(x.alloc, signs, value, state)
}

/// The same of an operand with signs, which are told from the outer one inwards.
#[inline(never)]
pub fn signed<C: Nested>(
    x: &Engine<'_>,
    units: &ReadyUnits<C>,
    operand: &TypedExpr,
    signs: &[TypedSign],
    state: &mut RunState<'_>,
) -> Result<Value, Halt>
    ensures { Runs (by.signs_of (setting_of (x.now, C.means units.now)) signs.now (expr_of (x.now, C.means units.now) operand.now) (seen state.old)) result state.new }
{
    prefixed(x, units, operand, signs, state)
}
