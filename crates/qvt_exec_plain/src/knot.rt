//! Phrases that stand alone, with all phrases inside them.

ghost use Rattle.qvt_program_exprs.specs.Program.{program_view};
ghost use Rattle.qvt_exec_exprs.specs.Means.{block_of, expr_of};
ghost use Rattle.qvt_exec_state.specs.Runs.{Runs, seen};
ghost use Rattle.qvt_exec_plain.specs.Alone.{alone_in};

use crate::alone::Alone;
use crate::inside::{block_inside, expr_inside};
use qvt_exec_blocks::statements::bytes_of_block;
use qvt_exec_exprs::engine::Engine;
use qvt_exec_exprs::exprs::{bytes_of, left_behind};
use qvt_exec_state::state::RunState;
use qvt_program_exprs::program::Program;
use qvt_run_data::exit::Halt;
use qvt_types_nodes::tree::{TypedExpr, TypedStmts};
use qvt_value::value::Value;

/// How many bytes of the stack the phrases of a plain expression may take. It guards the stack of 8 MiB, of which as much
/// is kept free for them: want of memory is told of a phrase that would stand deeper.
pub const STACK: u32 = 250_000;

/// What an expression gives, where so many bytes of the stack are left.
#[cycle(alone)]
#[inline(never)]
fn expr_at(
    program: &Program,
    left: u32,
    x: &Engine<'_>,
    node: &TypedExpr,
    state: &mut RunState<'_>,
) -> Result<Value, Halt>
    ensures { Runs (expr_of (x.now, alone_in (program_view program.now)) node.now (seen state.old)) result state.new }
{
    let Some(less) = left_behind(left, bytes_of(node)) else {
        return Err(Halt::NoMemory);
    };
    let inside = Alone {
        program,
        expr_at,
        block_at,
        left: less,
    };
    expr_inside(x, inside, node, state)
}

/// What a block does, where so many bytes of the stack are left.
#[cycle(alone)]
#[inline(never)]
fn block_at(
    program: &Program,
    left: u32,
    x: &Engine<'_>,
    nodes: &TypedStmts,
    state: &mut RunState<'_>,
) -> Result<(), Halt>
    ensures { Runs (block_of (x.now, alone_in (program_view program.now)) nodes.now (seen state.old)) result state.new }
{
    let Some(less) = left_behind(left, bytes_of_block(nodes.as_slice())) else {
        return Err(Halt::NoMemory);
    };
    let inside = Alone {
        program,
        expr_at,
        block_at,
        left: less,
    };
    block_inside(x, inside, nodes.as_slice(), state)
}

/// What an expression gives that stands alone.
pub fn value_alone(
    program: &Program,
    x: &Engine<'_>,
    node: &TypedExpr,
    state: &mut RunState<'_>,
) -> Result<Value, Halt>
    ensures { Runs (expr_of (x.now, alone_in (program_view program.now)) node.now (seen state.old)) result state.new }
{
    expr_at(program, STACK, x, node, state)
}
