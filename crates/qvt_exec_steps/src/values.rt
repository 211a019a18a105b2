//! Arguments.

ghost use Rattle.qvt_run_rules.specs.Expressions as rule;
ghost use Rattle.qvt_exec_leaves.specs.Runs.{Runs, seen};
ghost use Rattle.qvt_exec_invocations.specs.Means.{exprs_of};

use qvt_base::seq::Seq;
use qvt_exec_invocations::engine::Engine;
use qvt_exec_invocations::nested::{Nested, expr};
use qvt_exec_invocations::units::ReadyUnits;
use qvt_exec_leaves::state::RunState;
use qvt_run_data::exit::Halt;
use qvt_types_nodes::tree::TypedExpr;
use qvt_value::value::Values;

/// The values of expressions, one after another.
#[tactic(auto, unfolding(qvt_exec_phrases::specs::Means::exprs_of, qvt_exec_phrases::specs::Means::expr_of, qvt_meaning::specs::Phrases::exprs))]
pub fn values<C: Nested>(
    x: &Engine<'_>,
    units: &ReadyUnits<C>,
    nodes: &[TypedExpr],
    state: &mut RunState<'_>,
) -> Result<Values, Halt>
    ensures { Runs (rule.values (exprs_of (x.now, C.means units.now) nodes.now) (seen state.old)) result state.new }
{
    let mut done = Seq::new(x.alloc);
    for node in nodes {
        let value = expr(x, units, node, state)?;
        done.push(value)?;
    }
    Ok(done)
}
