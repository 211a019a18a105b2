//! What stands behind the phrases of a unit: functions by which phrases run, and calls and resolves are answered.

ghost use Rattle.qvt_exec_answers.specs.Table.{IsTable};
ghost use Rattle.qvt_exec.specs.Calls.{units_of};
ghost use Rattle.qvt_exec.specs.Knot.{GivesBlock, GivesCall, GivesExpr};

use qvt_base::numbers::Place;
use qvt_exec_answers::answering::Answering;
use qvt_exec_answers::answers::answered;
use qvt_exec_phrases::engine::Engine;
use qvt_exec_phrases::nested::Nested;
use qvt_exec_phrases::units::UnitCalls;
use qvt_exec_state::state::RunState;
use qvt_run_data::callee::Callee;
use qvt_run_data::exit::Halt;
use qvt_run_data::request::Query;
use qvt_types_nodes::tree::{TypedExpr, TypedStmts};
use qvt_types_program::program::Program;
use qvt_value::value::{Value, Values};

/// Functions that run expressions and blocks and call units; how many calls may be open within; and how many
/// phrases may stand within.
#[derive(Drop)]
pub struct Below<'b, 'e, 'a, E, B, F> {
    pub answering: &'b Answering<'e, 'a>,
    pub expr_at: E,
    pub block_at: B,
    pub call_at: F,
    pub calls: u32,
    pub left: u32,
}

impl<
    'b,
    'e,
    'a,
    E: Fn(
        &Answering<'_, '_>,
        u32,
        u32,
        &Engine<'_>,
        &TypedExpr,
        &mut RunState<'_>,
    ) -> Result<Value, Halt>,
    B: Fn(
        &Answering<'_, '_>,
        u32,
        u32,
        &Engine<'_>,
        &TypedStmts,
        &mut RunState<'_>,
    ) -> Result<(), Halt>,
    F: Fn(
        &Answering<'_, '_>,
        u32,
        u32,
        Callee,
        Values,
        Place,
        &mut RunState<'_>,
    ) -> Result<Value, Halt>,
> UnitCalls for Below<'b, 'e, 'a, E, B, F> {
    ghost ready = { λ b. IsTable b.answering.now.expressions.now × (GivesExpr b.answering.now b.calls b.left (E.pre b.expr_at) (E.post b.expr_at) × GivesBlock b.answering.now b.calls b.left (B.pre b.block_at) (B.post b.block_at)) × GivesCall b.answering.now b.calls b.left (F.pre b.call_at) (F.post b.call_at) };

    ghost means = { λ b. units_of b.answering.now b.calls };

    fn call(
        &self,
        callee: Callee,
        args: Values,
        place: Place,
        state: &mut RunState<'_>,
    ) -> Result<Value, Halt> {
        (self.call_at)(
            self.answering,
            self.calls,
            self.left,
            callee,
            args,
            place,
            state,
        )
    }

    fn resolve(&self, query: Query, place: Place, state: &mut RunState<'_>) -> Result<Value, Halt> {
        answered(self.answering, query, place, state)
    }
}

impl<
    'b,
    'e,
    'a,
    E: Fn(
        &Answering<'_, '_>,
        u32,
        u32,
        &Engine<'_>,
        &TypedExpr,
        &mut RunState<'_>,
    ) -> Result<Value, Halt>,
    B: Fn(
        &Answering<'_, '_>,
        u32,
        u32,
        &Engine<'_>,
        &TypedStmts,
        &mut RunState<'_>,
    ) -> Result<(), Halt>,
    F: Fn(
        &Answering<'_, '_>,
        u32,
        u32,
        Callee,
        Values,
        Place,
        &mut RunState<'_>,
    ) -> Result<Value, Halt>,
> Nested for Below<'b, 'e, 'a, E, B, F> {
    fn expr(
        &self,
        x: &Engine<'_>,
        node: &TypedExpr,
        state: &mut RunState<'_>,
    ) -> Result<Value, Halt> {
        (self.expr_at)(self.answering, self.calls, self.left, x, node, state)
    }

    fn block(
        &self,
        x: &Engine<'_>,
        nodes: &TypedStmts,
        state: &mut RunState<'_>,
    ) -> Result<(), Halt> {
        (self.block_at)(self.answering, self.calls, self.left, x, nodes, state)
    }

    fn program(&self) -> &Program {
        self.answering.expressions.program()
    }
}
