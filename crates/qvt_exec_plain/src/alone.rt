//! What stands inside phrases that stand alone: no unit is behind their calls, and no trace behind their resolves.

ghost use Rattle.qvt_program_exprs.specs.Program.{program_view};
ghost use Rattle.qvt_exec_plain.specs.Alone.{GivesBlockAlone, GivesExprAlone, alone_in};

use qvt_base::numbers::Place;
use qvt_exec_exprs::engine::Engine;
use qvt_exec_exprs::nested::Nested;
use qvt_exec_exprs::units::UnitCalls;
use qvt_exec_state::state::RunState;
use qvt_exec_state::steps::misfit;
use qvt_program_exprs::program::Program;
use qvt_run_data::callee::Callee;
use qvt_run_data::exit::Halt;
use qvt_run_data::request::Query;
use qvt_types_nodes::tree::{TypedExpr, TypedStmts};
use qvt_value::value::{Value, Values};

/// Functions that evaluate expressions and run blocks, and how many phrases may stand within one another.
#[derive(Drop)]
pub struct Alone<'p, E, B> {
    pub program: &'p Program,
    pub expr_at: E,
    pub block_at: B,
    pub left: u32,
}

impl<
    'p,
    E: Fn(&Program, u32, &Engine<'_>, &TypedExpr, &mut RunState<'_>) -> Result<Value, Halt>,
    B: Fn(&Program, u32, &Engine<'_>, &TypedStmts, &mut RunState<'_>) -> Result<(), Halt>,
> UnitCalls for Alone<'p, E, B> {
    ghost ready = { λ a. GivesExprAlone a.program.now a.left (E.pre a.expr_at) (E.post a.expr_at) × GivesBlockAlone a.program.now a.left (B.pre a.block_at) (B.post a.block_at) };

    ghost means = { λ a. alone_in (program_view a.program.now) };

    fn call(
        &self,
        callee: Callee,
        args: Values,
        place: Place,
        state: &mut RunState<'_>,
    ) -> Result<Value, Halt> {
        misfit(place)
    }

    fn resolve(&self, query: Query, place: Place, state: &mut RunState<'_>) -> Result<Value, Halt> {
        misfit(place)
    }
}

impl<
    'p,
    E: Fn(&Program, u32, &Engine<'_>, &TypedExpr, &mut RunState<'_>) -> Result<Value, Halt>,
    B: Fn(&Program, u32, &Engine<'_>, &TypedStmts, &mut RunState<'_>) -> Result<(), Halt>,
> Nested for Alone<'p, E, B> {
    fn expr(
        &self,
        x: &Engine<'_>,
        node: &TypedExpr,
        state: &mut RunState<'_>,
    ) -> Result<Value, Halt> {
        (self.expr_at)(self.program, self.left, x, node, state)
    }

    fn block(
        &self,
        x: &Engine<'_>,
        nodes: &TypedStmts,
        state: &mut RunState<'_>,
    ) -> Result<(), Halt> {
        (self.block_at)(self.program, self.left, x, nodes, state)
    }

    fn program(&self) -> &Program {
        self.program
    }
}
