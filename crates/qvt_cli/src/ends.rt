//! What a run of the engine leaves.

ghost use Rattle.std.specs.Prelude.{◌≡◌, Err, IfOk, List, Ok, Option, Result, map, ℕ};
ghost use Rattle.qvt_store.specs.Contents.{Contents};
ghost use Rattle.qvt_run_data.specs.declared.exit.End.{End};
ghost use Rattle.qvt_meaning.specs.Accepts.{ProgramTerm};
ghost use Rattle.qvt_meaning.specs.Run as rules;
ghost use Rattle.qvt_meaning_report.specs.Meaning as meaning;
ghost use Rattle.qvt_outcome.specs.Outcome.{Outcome};
ghost use Rattle.qvt_outcome.specs.Plans.{HaveFaultLines, outcome_of};
ghost use Rattle.qvt_outcome.specs.Steps.{GivesOrStops, IfFaultOf, IsFaultWith, Stops};
ghost use Rattle.qvt_types_program.specs.Program.{program_view};
ghost use Rattle.qvt_exec.specs.Comes.{Comes};
ghost use Rattle.qvt_live_store.specs.Held.{contents_of};
ghost use Rattle.qvt_exec.specs.Finish.{finished_view};
ghost use Rattle.qvt_exec.specs.Patches.{value_of};
ghost use Rattle.qvt_outputs.specs.Conforming.{AreConforming};
ghost use Rattle.qvt_outputs.specs.Left.{left};
ghost use Rattle.qvt_work.specs.Conforming.{EndConforms};
ghost use Rattle.qvt_work.specs.Ends.{left_over};

use crate::entries::written_entries;
use qvt_base::seq::Seq;
use qvt_exec::finish::Finished;
use qvt_exec::laws::candidates_stay;
use qvt_exec::stop::RunStop;
use qvt_job::job::Job;
use qvt_live_store::held::HeldStore;
use qvt_model::id_table::IdTable;
use qvt_outcome::plan::Plan;
use qvt_outcome::stop::Stop;
use qvt_outputs::left::{left_by, stopped_by};
use qvt_outputs::run_end::RunEnd;
use qvt_types_program::program::Program;
use std::alloc::Global;
use std::mem;

/// What a run leaves that has ended well, and has written its entries into the store that its last statement left.
fn finished_left(
    alloc: Global,
    job: &Job,
    program: &Program,
    ids: &IdTable,
    finished: Finished<'_>,
) -> Result<Plan, Stop>
    ensures gives { (before : Contents) → rules.patched before (map value_of finished.entry.entries) ≡ Ok (contents_of finished.entry.state.store) → GivesOrStops outcome_of result (left job.now (program_view program.now) ids.now (meaning.outcome_of (Ok (finished_view before finished.entry)))) }
    ensures ready { IfOk result (λ plan. HaveFaultLines plan.outputs) }
    ensures no_reads { IfFaultOf result (λ file. ⊥) }
    ensures conform { IfOk result (λ plan. AreConforming (contents_of finished.entry.state.store) job.now.outputs) }
{
    candidates_stay();
    let mut finished = finished;
    let kept = mem::replace(&mut finished.entries, Seq::new(alloc));
    let HeldStore::Own(store) = &finished.state.store else {
        return Err(Stop::NoMemory);
    };
    let trace = &finished.state.trace;
    let entries = written_entries(alloc, trace, store.as_store(), kept)?;
    let records = trace.as_slice();
    let end = RunEnd {
        store: store.as_store(),
        records,
        entries: entries.as_slice(),
        cost: finished.cost,
    };
    left_by(alloc, job, program, ids, &end)
}

/// The end of a run that is not finished.
fn unfinished(alloc: Global, job: &Job, why: RunStop) -> Stop
    ensures stops { (p : ProgramTerm) (ids : List (Option (List ℕ))) (r : Result rules.FinishedRun End) → Comes r (Err why) → Stops {A = Outcome} result (left job.now p ids (meaning.outcome_of r)) }
    ensures no_reads { IsFaultWith result (λ file. ⊥) }
{
    match why {
        RunStop::Ends(end) => stopped_by(alloc, job, end),
        RunStop::NoMemory => Stop::NoMemory,
    }
}

/// What a run of a job's program leaves, by how it ended: all that is to be written, or what ended it.
pub fn ended(
    alloc: Global,
    job: &Job,
    program: &Program,
    ids: &IdTable,
    run: Result<Finished<'_>, RunStop>,
) -> Result<Plan, Stop>
    ensures gives { (store : Contents) → Comes (rules.finished (program_view program.now) store job.now.fuel) run.entry → GivesOrStops outcome_of result (left_over job.now (program_view program.now) ids.now store) }
    ensures ready { IfOk result (λ plan. HaveFaultLines plan.outputs) }
    ensures no_reads { IfFaultOf result (λ file. ⊥) }
    ensures conform { (store : Contents) → Comes (rules.finished (program_view program.now) store job.now.fuel) run.entry → IfOk result (λ plan. EndConforms job.now (program_view program.now) store) }
{
    match run {
        Ok(finished) => finished_left(alloc, job, program, ids, finished),
        Err(why) => Err(unfinished(alloc, job, why)),
    }
}
