//! Phrases over what stands inside them.

ghost use Rattle.qvt_exec_exprs.specs.Means.{block_of, expr_of};
ghost use Rattle.qvt_exec_state.specs.Runs.{Runs, seen};

use qvt_exec_blocks::statements::in_scope;
use qvt_exec_exprs::engine::Engine;
use qvt_exec_exprs::exprs::expression;
use qvt_exec_exprs::nested::Nested;
use qvt_exec_exprs::units::ReadyUnits;
use qvt_exec_state::state::RunState;
use qvt_run_data::exit::Halt;
use qvt_types_nodes::tree::{TypedExpr, TypedStmt};
use qvt_value::value::Value;

/// What an expression gives, over units that are ready.
pub fn expr_inside<C: Nested + Drop>(
    x: &Engine<'_>,
    units: C,
    node: &TypedExpr,
    state: &mut RunState<'_>,
) -> Result<Value, Halt>
    requires { C.ready units }
    ensures { Runs (expr_of (x.now, C.means units) node.now (seen state.old)) result state.new }
{
    let units = ReadyUnits { units };
    expression(x, &units, node, state)
}

/// What a block does, over units that are ready.
pub fn block_inside<C: Nested + Drop>(
    x: &Engine<'_>,
    units: C,
    nodes: &[TypedStmt],
    state: &mut RunState<'_>,
) -> Result<(), Halt>
    requires { C.ready units }
    ensures { Runs (block_of (x.now, C.means units) nodes.now (seen state.old)) result state.new }
{
    let units = ReadyUnits { units };
    in_scope(x, &units, nodes, state)
}
