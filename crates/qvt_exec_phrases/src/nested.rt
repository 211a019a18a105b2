//! What stands inside a phrase, and what stands behind its calls.

ghost use Rattle.std.specs.Prelude.{◌≡◌};
ghost use Rattle.qvt_program_units.specs.Program.{program_view};
ghost use Rattle.qvt_exec_state.specs.Runs.{Runs, seen};
ghost use Rattle.qvt_exec_phrases.specs.Means.{block_of, expr_of};

use crate::engine::Engine;
use crate::units::{ReadyUnits, UnitCalls};
use qvt_exec_state::state::RunState;
use qvt_program_units::program::Program;
use qvt_run_data::exit::Halt;
use qvt_types_nodes::tree::{TypedExpr, TypedStmts};
use qvt_value::value::Value;

/// The phrases that stand inside a phrase, with the calls of units and the program.
pub trait Nested: UnitCalls {
    /// What an expression gives.
    fn expr(
        &self,
        x: &Engine<'_>,
        node: &TypedExpr,
        state: &mut RunState<'_>,
    ) -> Result<Value, Halt>
        requires { Self.ready self.now }
        ensures { Runs (expr_of (x.now, Self.means self.now) node.now (seen state.old)) result state.new };

    /// What a block does.
    fn block(
        &self,
        x: &Engine<'_>,
        nodes: &TypedStmts,
        state: &mut RunState<'_>,
    ) -> Result<(), Halt>
        requires { Self.ready self.now }
        ensures { Runs (block_of (x.now, Self.means self.now) nodes.now (seen state.old)) result state.new };

    /// The program.
    fn program(&self) -> &Program
        ensures { program_view result.now ≡ (Self.means self.now).program };
}

/// What an expression gives that stands inside a phrase.
pub fn expr<C: Nested>(
    x: &Engine<'_>,
    units: &ReadyUnits<C>,
    node: &TypedExpr,
    state: &mut RunState<'_>,
) -> Result<Value, Halt>
    ensures { Runs (expr_of (x.now, C.means units.now) node.now (seen state.old)) result state.new }
{
    units.units.expr(x, node, state)
}

/// What a block does that stands inside a phrase.
pub fn block<C: Nested>(
    x: &Engine<'_>,
    units: &ReadyUnits<C>,
    nodes: &TypedStmts,
    state: &mut RunState<'_>,
) -> Result<(), Halt>
    ensures { Runs (block_of (x.now, C.means units.now) nodes.now (seen state.old)) result state.new }
{
    units.units.block(x, nodes, state)
}

/// The program whose phrases they are.
pub fn program<C: Nested>(units: &ReadyUnits<C>) -> &Program
    ensures { program_view result.now ≡ (C.means units.now).program }
{
    units.units.program()
}
