//! The init section of a mapping, and its result.

ghost use Rattle.qvt_run_rules.specs.Mappings as rule;
ghost use Rattle.qvt_run_rules.specs.State.{caught};
ghost use Rattle.qvt_exec_state.specs.Runs.{Runs, seen};
ghost use Rattle.qvt_exec_candidates.specs.Begun.{RunsTo, begun_view, made_view};
ghost use Rattle.qvt_exec_candidates.specs.Stage.{rule_of};

use crate::phrases::section_returns;
use qvt_base::seq::Seq;
use qvt_exec_blocks::nested::Nested;
use qvt_exec_candidates::begun::{Begun, Made};
use qvt_exec_candidates::mapping::MappingUnit;
use qvt_exec_candidates::results::{completed, making_of, result_read, with_result};
use qvt_exec_candidates::run::Run;
use qvt_exec_phrases::units::ReadyUnits;
use qvt_exec_state::state::RunState;
use qvt_run_data::exit::Halt;
use qvt_run_data::local::Local;
use qvt_value::value::Value;
use std::mem;

/// Whether a `return` ended the init section.
#[tactic(auto, unfolding(qvt_exec_candidates::specs::Stage::rule_in))]
pub(crate) fn init<C: Nested>(
    run: &Run,
    units: &ReadyUnits<C>,
    mapping: &MappingUnit<'_>,
    state: &mut RunState<'_>,
) -> Result<bool, Halt>
    ensures { Runs (caught (rule_of (run.now, C.means units.now) mapping.now).init (seen state.old)) result state.new }
{
    section_returns(run, units, mapping.node.init.as_slice(), state)
}

/// The init section, and the result.
#[tactic(auto, unfolding(qvt_run_rules::specs::Mappings::first_inside, qvt_exec_candidates::specs::Stage::rule_in))]
fn first_inside<C: Nested>(
    run: &Run,
    units: &ReadyUnits<C>,
    mapping: &MappingUnit<'_>,
    state: &mut RunState<'_>,
) -> Result<Made, Halt>
    ensures { RunsTo made_view (rule.first_inside (rule_of (run.now, C.means units.now) mapping.now) (seen state.old)) result state.new }
{
    let returned = init(run, units, mapping, state)?;
    let making = making_of(&mapping.node.result);
    let set = result_read(making, mapping.node.place, state)?;
    if returned {
        Ok(Made::Ended(set))
    } else {
        completed(run, units, mapping, set, state)
    }
}

/// The same with variables of its own, those of a call with these.
#[tactic(auto, unfolding(qvt_run_rules::specs::Mappings::first, qvt_run_rules::specs::Locals::in_own, qvt_exec_candidates::specs::Stage::rule_in), using(qvt_exec_candidates::proofs::Under::begun_ok, qvt_exec_candidates::proofs::Under::begun_err))]
pub(crate) fn first<C: Nested>(
    run: &Run,
    units: &ReadyUnits<C>,
    mapping: &MappingUnit<'_>,
    locals: Seq<Local>,
    state: &mut RunState<'_>,
) -> Result<Begun, Halt>
    ensures { RunsTo begun_view (rule.first (rule_of (run.now, C.means units.now) mapping.now) locals (seen state.old)) result state.new }
{
    let making = making_of(&mapping.node.result);
    let own = with_result(run.alloc, making, Value::Null, locals)?;
    let outer = mem::replace(&mut state.locals, own);
    let inner = mem::replace(&mut state.inner, None);
    let outcome = first_inside(run, units, mapping, state);
    let locals = mem::replace(&mut state.locals, outer);
    state.inner = inner;
    match outcome {
        Ok(made) => Ok(Begun { made, locals }),
        Err(halt) => Err(halt),
    }
}
