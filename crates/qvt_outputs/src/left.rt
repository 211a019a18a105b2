//! What a run leaves.

ghost use Rattle.std.specs.Prelude.{◌≡◌, Err, IfOk, List, Ok, Option, ℕ};
ghost use Rattle.qvt_meaning.specs.Accepts.{ProgramTerm};
ghost use Rattle.qvt_meaning.specs.Run.{FinishedRun};
ghost use Rattle.qvt_meaning_report.specs.Lines as lines;
ghost use Rattle.qvt_meaning_report.specs.Meaning as meaning;
ghost use Rattle.qvt_outcome.specs.Outcome.{Outcome, done};
ghost use Rattle.qvt_outcome.specs.Plans.{HaveFaultLines, files_in, outcome_of};
ghost use Rattle.qvt_outcome.specs.Steps.{GivesOrStops, IfFaultOf, IsFaultWith, Stops};
ghost use Rattle.qvt_store.specs.Sound.{Sound};
ghost use Rattle.qvt_types_program.specs.Program.{program_view};
ghost use Rattle.std.specs.List.{AllByRecursion};
ghost use Rattle.qvt_outputs.specs.Conforming.{AreConforming, IsOutput};
ghost use Rattle.qvt_outputs.specs.Left.{files_left, left};
ghost use Rattle.qvt_outputs.specs.RunEnd.{IsEnd};

use crate::low::within_bounds;
use crate::models::model_outputs;
use crate::run_end::RunEnd;
use crate::trace::put_trace;
use qvt_base::list_fault::ListFault;
use qvt_base::seq::Seq;
use qvt_job::job::Job;
use qvt_model::id_table::IdTable;
use qvt_model::laws::extent_is_read;
use qvt_outcome::plan::{Output, Plan};
use qvt_outcome::stop::Stop;
use qvt_report::lines::{done_line, end_line};
use qvt_run_data::exit::End;
use qvt_types_program::program::Program;
use qvt_written::laws::written_conforms;
use std::alloc::Global;

/// The files of the job's outputs, and that of the trace.
fn outputs_of(
    alloc: Global,
    job: &Job,
    program: &Program,
    ids: &IdTable,
    end: &RunEnd<'_>,
) -> Result<Seq<Output>, ListFault>
    requires { Sound end.now.store.now }
    ensures files { IfOk result (λ outputs. (f : FinishedRun) → IsEnd f end.now → files_in outputs ≡ files_left job.now (program_view program.now) ids.now f) }
    ensures ready { IfOk result (λ outputs. HaveFaultLines outputs) }
    ensures there { IfOk result (λ outputs. AllByRecursion (λ o. IsOutput end.now.store.now o.model) job.now.outputs) }
{
    let mut outputs = model_outputs(alloc, end.store, job.outputs.as_slice())?;
    put_trace(alloc, &mut outputs, &job.trace, program, ids, end)?;
    Ok(outputs)
}

/// All bytes of a run that is within its lower bounds.
fn plan_of(
    alloc: Global,
    job: &Job,
    program: &Program,
    ids: &IdTable,
    end: &RunEnd<'_>,
) -> Result<Plan, ListFault>
    requires { Sound end.now.store.now }
    ensures done { IfOk result (λ plan. (f : FinishedRun) → IsEnd f end.now → outcome_of plan ≡ done (files_left job.now (program_view program.now) ids.now f) (lines.done_line f)) }
    ensures ready { IfOk result (λ plan. HaveFaultLines plan.outputs) }
    ensures there { IfOk result (λ plan. AllByRecursion (λ o. IsOutput end.now.store.now o.model) job.now.outputs) }
{
    let outputs = outputs_of(alloc, job, program, ids, end)?;
    let line = done_line(
        alloc,
        end.store,
        end.records.len(),
        end.entries.len(),
        end.cost,
    )?;
    Ok(Plan { outputs, line })
}

/// What a run leaves that has ended well: all that is to be written, or the first slot under its lower bound. Every model that
/// is written conforms to its metamodel.
pub fn left_by(
    alloc: Global,
    job: &Job,
    program: &Program,
    ids: &IdTable,
    end: &RunEnd<'_>,
) -> Result<Plan, Stop>
    requires { Sound end.now.store.now }
    ensures gives { (f : FinishedRun) → IsEnd f end.now → GivesOrStops outcome_of result (left job.now (program_view program.now) ids.now (meaning.outcome_of (Ok f))) }
    ensures ready { IfOk result (λ plan. HaveFaultLines plan.outputs) }
    ensures no_reads { IfFaultOf result (λ file. ⊥) }
    ensures conform { IfOk result (λ plan. AreConforming end.now.store.now job.now.outputs) }
{
    written_conforms();
    extent_is_read();
    end.store.is_whole();
    match within_bounds(alloc, end.store, ids) {
        Err(stop) => Err(stop),
        Ok(()) => {
            let plan = plan_of(alloc, job, program, ids, end)?;
            Ok(plan)
        }
    }
}

/// The end of a run that a fault ended, or the end of the fuel.
#[tactic(auto, unfolding(crate::specs::Left::left))]
pub fn stopped_by(alloc: Global, job: &Job, end: End) -> Stop
    ensures stops { (p : ProgramTerm) (ids : List (Option (List ℕ))) → Stops {A = Outcome} result (left job.now p ids (meaning.outcome_of (Err end))) }
    ensures no_reads { IsFaultWith result (λ file. ⊥) }
{
    match end {
        End::OutOfFuel => Stop::OutOfFuel(job.fuel),
        End::Fault(_, _) => match end_line(alloc, job.text.as_str(), job.fuel, end) {
            Ok(line) => Stop::Fault(line),
            Err(_) => Stop::NoMemory,
        },
    }
}
