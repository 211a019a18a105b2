//! Conditions of mappings.

ghost use Rattle.qvt_meaning.specs.Nodes as nodes;
ghost use Rattle.qvt_meaning.specs.Phrases as phrase;
ghost use Rattle.qvt_run_rules.specs.Statements as statement;
ghost use Rattle.std.specs.Prelude.{None};
ghost use Rattle.qvt_types_nodes.specs.View.{typed_expr_view};
ghost use Rattle.qvt_exec_state.specs.Runs.{Runs, seen};
ghost use Rattle.qvt_exec_candidates.specs.Stage.{setting_in};

use crate::run::Run;
use qvt_exec_phrases::engine::Engine;
use qvt_exec_phrases::nested::Nested;
use qvt_exec_phrases::units::ReadyUnits;
use qvt_exec_state::state::RunState;
use qvt_exec_statements::conditions::holds;
use qvt_run_data::exit::Halt;
use qvt_types_nodes::tree::TypedExpr;

/// Whether the condition of a mapping is true.
#[tactic(auto, unfolding(qvt_exec_phrases::specs::Means::expr_of))]
pub fn condition<C: Nested>(
    run: &Run,
    units: &ReadyUnits<C>,
    node: &TypedExpr,
    state: &mut RunState<'_>,
) -> Result<bool, Halt>
    ensures { Runs (statement.holds (phrase.expr (setting_in (run.now, C.means units.now)) (C.means units.now).calls None (typed_expr_view node.now)) (nodes.place_of (typed_expr_view node.now)) (seen state.old)) result state.new }
{
    let none = None;
    let x = Engine {
        alloc: run.alloc,
        limit: Some(run.fuel),
        is_plain: false,
        answer: &none,
    };
    holds(&x, units, node, state)
}
