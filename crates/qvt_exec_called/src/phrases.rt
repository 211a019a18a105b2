//! Sections of mappings.

ghost use Rattle.qvt_meaning.specs.Units as of_units;
ghost use Rattle.qvt_run_rules.specs.State.{caught};
ghost use Rattle.qvt_types_nodes.specs.View.{typed_block_view};
ghost use Rattle.qvt_exec_state.specs.Runs.{Runs, seen};
ghost use Rattle.qvt_exec_candidates.specs.Stage.{setting_in};

use qvt_exec_blocks::engine::Engine;
use qvt_exec_blocks::nested::Nested;
use qvt_exec_blocks::statements::in_order;
use qvt_exec_candidates::run::Run;
use qvt_exec_phrases::given::caught;
use qvt_exec_phrases::units::ReadyUnits;
use qvt_exec_state::state::RunState;
use qvt_run_data::exit::Halt;
use qvt_types_nodes::tree::TypedStmt;

/// A section of a mapping, whose variables stay in scope.
#[tactic(auto, unfolding(qvt_exec_phrases::specs::Means::stmts_of))]
pub fn section<C: Nested>(
    run: &Run,
    units: &ReadyUnits<C>,
    nodes: &[TypedStmt],
    state: &mut RunState<'_>,
) -> Result<(), Halt>
    ensures { Runs (of_units.section (setting_in (run.now, C.means units.now)) (C.means units.now).calls (typed_block_view nodes.now) (seen state.old)) result state.new }
{
    let none = None;
    let x = Engine {
        alloc: run.alloc,
        limit: Some(run.fuel),
        is_plain: false,
        answer: &none,
    };
    in_order(&x, units, nodes, state)
}

/// Whether a `return` ended the section.
pub fn section_returns<C: Nested>(
    run: &Run,
    units: &ReadyUnits<C>,
    nodes: &[TypedStmt],
    state: &mut RunState<'_>,
) -> Result<bool, Halt>
    ensures { Runs (caught (of_units.section (setting_in (run.now, C.means units.now)) (C.means units.now).calls (typed_block_view nodes.now)) (seen state.old)) result state.new }
{
    let done = section(run, units, nodes, state);
    caught(done)
}
