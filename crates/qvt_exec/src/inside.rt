//! Phrases over what stands inside them.

ghost use Rattle.qvt_exec_phrases.specs.Means.{block_of, expr_of};
ghost use Rattle.qvt_exec_state.specs.Runs.{Runs, seen};

use qvt_exec_answers::exprs::expression;
use qvt_exec_called::statements::in_scope;
use qvt_exec_phrases::engine::Engine;
use qvt_exec_phrases::nested::Nested;
use qvt_exec_phrases::units::ReadyUnits;
use qvt_exec_state::state::RunState;
use qvt_run_data::exit::Halt;
use qvt_types_nodes::tree::{TypedExpr, TypedStmts};
use qvt_value::value::Value;

/// What an expression gives, over units that are ready.
pub(crate) fn expr_inside<C: Nested + Drop>(
    x: &Engine<'_>,
    units: C,
    node: &TypedExpr,
    state: &mut RunState<'_>,
) -> Result<Value, Halt>
    requires { C.ready units }
    ensures { Runs (expr_of (x.now, C.means units) node.now (seen state.old)) result state.new }
{
    let units = ReadyUnits { units };
    expression(x, &units, node, state)
}

/// What a block does, over units that are ready.
pub(crate) fn block_inside<C: Nested + Drop>(
    x: &Engine<'_>,
    units: C,
    nodes: &TypedStmts,
    state: &mut RunState<'_>,
) -> Result<(), Halt>
    requires { C.ready units }
    ensures { Runs (block_of (x.now, C.means units) nodes.now (seen state.old)) result state.new }
{
    let units = ReadyUnits { units };
    in_scope(x, &units, nodes.as_slice(), state)
}
