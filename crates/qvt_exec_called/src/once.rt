//! A call of a mapping up to its record: the result that the trace has, else the init section while the key is open.

ghost use Rattle.qvt_run_rules.specs.Mappings as rule;
ghost use Rattle.qvt_exec_state.specs.Runs.{seen};
ghost use Rattle.qvt_exec_candidates.specs.Begun.{RunsTo, begun_view};
ghost use Rattle.qvt_exec_candidates.specs.Framed.{first_noted};
ghost use Rattle.qvt_exec_candidates.specs.Stage.{rule_of};

use crate::first::first;
use qvt_base::numbers::Place;
use qvt_base::seq::Seq;
use qvt_exec_blocks::nested::Nested;
use qvt_exec_candidates::begun::{Begun, Made};
use qvt_exec_candidates::faults::faulted;
use qvt_exec_candidates::keys::{is_open, key_of, note, result_for};
use qvt_exec_candidates::mapping::MappingUnit;
use qvt_exec_candidates::run::Run;
use qvt_exec_phrases::units::ReadyUnits;
use qvt_exec_state::state::RunState;
use qvt_run_data::exit::Halt;
use qvt_run_data::fault::RunFault;
use qvt_run_data::local::Local;
use qvt_run_data::record::Key;
use std::alloc::Global;

/// The record is written before the sections; where the init section returned, if `result` is not null.
fn noted(alloc: Global, key: &Key, begun: Begun, state: &mut RunState<'_>) -> Result<Begun, Halt>
    ensures { RunsTo begun_view (rule.noted key.now (begun_view begun) (seen state.old)) result state.new }
{
    match begun.made {
        Made::Known(_) => {}
        Made::Ended(None) => {}
        Made::Ended(Some(object)) => note(alloc, key, Some(object), state)?,
        Made::New(made) => note(alloc, key, made, state)?,
    }
    Ok(begun)
}

fn first_noted<C: Nested>(
    run: &Run,
    units: &ReadyUnits<C>,
    mapping: &MappingUnit<'_>,
    key: &Key,
    locals: Seq<Local>,
    state: &mut RunState<'_>,
) -> Result<Begun, Halt>
    ensures { RunsTo begun_view (first_noted (rule_of (run.now, C.means units.now) mapping.now) key.now locals (seen state.old)) result state.new }
{
    let begun = first(run, units, mapping, locals, state)?;
    noted(run.alloc, key, begun, state)
}

/// The same while the key is open.
#[tactic(auto, unfolding(qvt_run_rules::specs::Mappings::with_key), using(qvt_exec_candidates::proofs::Under::shut_runs))]
fn keyed<C: Nested>(
    run: &Run,
    units: &ReadyUnits<C>,
    mapping: &MappingUnit<'_>,
    key: &Key,
    locals: Seq<Local>,
    state: &mut RunState<'_>,
) -> Result<Begun, Halt>
    ensures { RunsTo begun_view (rule.with_key key.now (first_noted (rule_of (run.now, C.means units.now) mapping.now) key.now locals) (seen state.old)) result state.new }
{
    let open = key_of(run.alloc, key.mapping.0, key.context, &key.args)?;
    let count = state.keys.len();
    state.keys.push(open)?;
    let begun = first_noted(run, units, mapping, key, locals, state);
    state.keys.truncate(count);
    begun
}

/// The result that the trace has for the key; else what comes first while the key is open, and its
/// record.
#[tactic(auto, unfolding(qvt_run_rules::specs::Mappings::once))]
pub fn once<C: Nested>(
    run: &Run,
    units: &ReadyUnits<C>,
    mapping: &MappingUnit<'_>,
    key: &Key,
    locals: Seq<Local>,
    place: Place,
    state: &mut RunState<'_>,
) -> Result<Begun, Halt>
    ensures { RunsTo begun_view (rule.once key.now place (rule.first (rule_of (run.now, C.means units.now) mapping.now) locals) (seen state.old)) result state.new }
{
    match result_for(key, state) {
        Some(known) => Ok(Begun {
            made: Made::Known(known),
            locals: Seq::new(run.alloc),
        }),
        None => {
            if is_open(key, state) {
                return faulted(RunFault::MappingCycle, place);
            }
            keyed(run, units, mapping, key, locals, state)
        }
    }
}
