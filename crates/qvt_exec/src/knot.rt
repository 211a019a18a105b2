//! The phrases of a run and its calls, of which 100 may be open inside one another.

ghost use Rattle.qvt_exec_phrases.specs.Means.{block_of, expr_of};
ghost use Rattle.qvt_exec_state.specs.Runs.{Runs, seen};
ghost use Rattle.qvt_exec_answers.specs.Table.{IsTable};
ghost use Rattle.qvt_exec.specs.Calls.{calls_of, units_of};

use crate::below::Below;
use crate::inside::{block_inside, expr_inside};
use crate::stack::left_in_call;
use qvt_base::numbers::Place;
use qvt_exec_answers::answering::Answering;
use qvt_exec_answers::exprs::{bytes_of, left_behind};
use qvt_exec_called::called::called;
use qvt_exec_called::run::Run;
use qvt_exec_called::statements::bytes_of_block;
use qvt_exec_phrases::engine::Engine;
use qvt_exec_state::state::RunState;
use qvt_run_data::callee::Callee;
use qvt_run_data::exit::{End, Exit, Halt};
use qvt_run_data::fault::RunFault;
use qvt_types_nodes::tree::{TypedExpr, TypedStmts};
use qvt_value::value::{Value, Values};

/// How many calls of units may be open.
pub const DEPTH: u32 = 100;

/// How many bytes of the stack the phrases and calls of a run may take. It guards the stack of 8 MiB: a phrase that would
/// stand deeper is told as want of memory. A call goes on with what is left of them.
pub const STACK: u32 = 7_900_000;

/// What an expression gives, where so many calls may be open and so many bytes of the stack are left.
#[cycle(run)]
#[inline(never)]
fn expr_at(
    a: &Answering<'_, '_>,
    calls: u32,
    left: u32,
    x: &Engine<'_>,
    node: &TypedExpr,
    state: &mut RunState<'_>,
) -> Result<Value, Halt>
    requires { IsTable a.now.expressions.now }
    ensures { Runs (expr_of (x.now, units_of a.now calls) node.now (seen state.old)) result state.new }
{
    let Some(less) = left_behind(left, bytes_of(node)) else {
        return Err(Halt::NoMemory);
    };
    let inside = Below {
        answering: a,
        expr_at,
        block_at,
        call_at,
        calls,
        left: less,
    };
    expr_inside(x, inside, node, state)
}

/// What a block does, where so many calls may be open and so many bytes of the stack are left.
#[cycle(run)]
#[inline(never)]
fn block_at(
    a: &Answering<'_, '_>,
    calls: u32,
    left: u32,
    x: &Engine<'_>,
    nodes: &TypedStmts,
    state: &mut RunState<'_>,
) -> Result<(), Halt>
    requires { IsTable a.now.expressions.now }
    ensures { Runs (block_of (x.now, units_of a.now calls) nodes.now (seen state.old)) result state.new }
{
    let Some(less) = left_behind(left, bytes_of_block(nodes.as_slice())) else {
        return Err(Halt::NoMemory);
    };
    let inside = Below {
        answering: a,
        expr_at,
        block_at,
        call_at,
        calls,
        left: less,
    };
    block_inside(x, inside, nodes, state)
}

/// The call of a unit, where so many may be open and so many bytes of the stack are left.
#[cycle(run)]
#[inline(never)]
fn call_at(
    a: &Answering<'_, '_>,
    calls: u32,
    left: u32,
    callee: Callee,
    args: Values,
    place: Place,
    state: &mut RunState<'_>,
) -> Result<Value, Halt>
    requires { IsTable a.now.expressions.now }
    ensures { Runs (calls_of a.now calls callee args place (seen state.old)) result state.new }
{
    if calls == 0 {
        return Err(Halt::Exits(Exit::Ends(End::Fault(RunFault::CallDepth, place))));
    }
    let Some(less) = left_in_call(a.expressions.program(), &callee, left) else {
        return Err(Halt::NoMemory);
    };
    let inside = Below {
        answering: a,
        expr_at,
        block_at,
        call_at,
        calls: calls - 1,
        left: less,
    };
    let run = Run {
        alloc: a.alloc,
        fuel: a.fuel,
    };
    called(&run, inside, callee, args, place, state)
}

/// What a block does in a run, outside all calls.
pub fn run_block(
    a: &Answering<'_, '_>,
    x: &Engine<'_>,
    nodes: &TypedStmts,
    state: &mut RunState<'_>,
) -> Result<(), Halt>
    requires { IsTable a.now.expressions.now }
    ensures { Runs (block_of (x.now, units_of a.now 100) nodes.now (seen state.old)) result state.new }
{
    block_at(a, DEPTH, STACK, x, nodes, state)
}
