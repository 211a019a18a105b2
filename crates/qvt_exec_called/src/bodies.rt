//! The bodies of units.

ghost use Rattle.qvt_meaning.specs.Units as of_units;
ghost use Rattle.qvt_types_nodes.specs.View.{typed_block_view};
ghost use Rattle.qvt_exec_state.specs.Runs.{Runs, seen};
ghost use Rattle.qvt_exec_candidates.specs.Stage.{setting_in};

use qvt_exec_blocks::engine::Engine;
use qvt_exec_blocks::nested::Nested;
use qvt_exec_blocks::statements::in_scope;
use qvt_exec_candidates::run::Run;
use qvt_exec_phrases::units::ReadyUnits;
use qvt_exec_state::state::RunState;
use qvt_run_data::exit::Halt;
use qvt_types_data::ty::Ty;
use qvt_types_nodes::tree::TypedStmt;

/// The body of a unit whose answer has this type.
#[tactic(auto, unfolding(qvt_exec_phrases::specs::Means::stmts_of))]
pub fn body<C: Nested>(
    run: &Run,
    units: &ReadyUnits<C>,
    answer: &Option<Ty>,
    nodes: &[TypedStmt],
    state: &mut RunState<'_>,
) -> Result<(), Halt>
    ensures { Runs (of_units.body_of (setting_in (run.now, C.means units.now)) (C.means units.now).calls answer.now (typed_block_view nodes.now) (seen state.old)) result state.new }
{
    let x = Engine {
        alloc: run.alloc,
        limit: Some(run.fuel),
        is_plain: false,
        answer,
    };
    in_scope(&x, units, nodes, state)
}
