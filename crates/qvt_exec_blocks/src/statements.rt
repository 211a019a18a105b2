//! Statements, one after another and each by its kind (QVT 1.3, 8.2.2).

ghost use Rattle.qvt_run_rules.specs.Statements as statement;
ghost use Rattle.qvt_types_nodes.specs.View.{typed_stmt_view};
ghost use Rattle.qvt_exec_state.specs.Runs.{Runs, seen};
ghost use Rattle.qvt_exec_phrases.specs.Means.{block_of, does_of, stmt_of, stmts_of};

use crate::assigned::assigned;
pub use crate::stack::bytes_of_block;
use qvt_exec_phrases::engine::Engine;
use qvt_exec_phrases::nested::Nested;
use qvt_exec_phrases::units::ReadyUnits;
use qvt_exec_state::state::RunState;
use qvt_exec_state::steps::tick;
use qvt_exec_statements::conditions::branch;
use qvt_exec_statements::loops::{for_each, repeat};
use qvt_exec_statements::values::{discard, give, variable};
use qvt_run_data::exit::Halt;
use qvt_types_nodes::tree::TypedStmt;

/// What a statement does behind its unit.
#[inline(always)]
#[tactic(auto, unfolding(qvt_exec_phrases::specs::Means::optional_of, qvt_exec_phrases::specs::Means::return_of, qvt_exec_phrases::specs::Means::expr_of, qvt_exec_phrases::specs::Means::stmts_of, qvt_exec_phrases::specs::Means::arms_of, qvt_exec_phrases::specs::Means::otherwise_of, qvt_exec_phrases::specs::Means::guarded_of, qvt_exec_phrases::specs::Means::target_of, qvt_exec_phrases::specs::Means::late_source_of))]
fn behind_unit<C: Nested>(
    x: &Engine<'_>,
    units: &ReadyUnits<C>,
    node: &TypedStmt,
    state: &mut RunState<'_>,
) -> Result<(), Halt>
    ensures { Runs (does_of (x.now, C.means units.now) (typed_stmt_view node.now) (seen state.old)) result state.new }
{
    match node {
        TypedStmt::Var {
            name,
            kind,
            value,
            place,
            ..
        } => variable(x, units, name, kind, value, *place, state),
        TypedStmt::Assign {
            target,
            adds,
            value,
            place,
            ..
        } => assigned(x, units, target, *adds, value, *place, state),
        TypedStmt::Return { value, .. } => give(x, units, value, state),
        TypedStmt::Value { value, .. } => discard(x, units, value, state),
        TypedStmt::If {
            condition,
            body,
            arms,
            otherwise,
            ..
        } => branch(x, units, condition, body, arms.as_slice(), otherwise, state),
        TypedStmt::While {
            condition,
            body,
            ..
        } => repeat(x, units, condition, body, state),
        TypedStmt::ForEach {
            source,
            name,
            kind,
            condition,
            body,
            ..
        } => for_each(x, units, source, name, kind, condition, body, state),
    }
}

/// A statement, which costs one unit.
#[inline(always)]
#[tactic(auto, using(crate::proofs::Charges::unit_first))]
fn stmt<C: Nested>(
    x: &Engine<'_>,
    units: &ReadyUnits<C>,
    node: &TypedStmt,
    state: &mut RunState<'_>,
) -> Result<(), Halt>
    ensures { Runs (stmt_of (x.now, C.means units.now) node.now (seen state.old)) result state.new }
{
    tick(x.limit, state)?;
    behind_unit(x, units, node, state)
}

/// Statements one after another, whose variables stay in scope.
#[inline(always)]
#[tactic(auto, unfolding(qvt_exec_phrases::specs::Means::stmts_of, qvt_exec_phrases::specs::Means::stmt_of, qvt_meaning::specs::Phrases::stmts))]
pub fn in_order<C: Nested>(
    x: &Engine<'_>,
    units: &ReadyUnits<C>,
    nodes: &[TypedStmt],
    state: &mut RunState<'_>,
) -> Result<(), Halt>
    ensures { Runs (statement.in_order (stmts_of (x.now, C.means units.now) nodes.now) (seen state.old)) result state.new }
{
    for node in nodes {
        stmt(x, units, node, state)?;
    }
    Ok(())
}

/// A block: statements one after another in a scope of their own.
#[inline(always)]
#[tactic(auto, unfolding(qvt_run_rules::specs::Statements::block, qvt_run_rules::specs::Locals::scoped))]
pub fn in_scope<C: Nested>(
    x: &Engine<'_>,
    units: &ReadyUnits<C>,
    nodes: &[TypedStmt],
    state: &mut RunState<'_>,
) -> Result<(), Halt>
    ensures { Runs (block_of (x.now, C.means units.now) nodes.now (seen state.old)) result state.new }
{
    let depth = state.locals.len();
    let done = in_order(x, units, nodes, state);
    state.locals.truncate(depth);
    done
}
