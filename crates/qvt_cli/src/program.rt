//! A program with the inputs of a job: they are read, and it is run over them.

ghost use Rattle.std.specs.Prelude.{◌≡◌, IfOk, Some};
ghost use Rattle.qvt_base.specs.Outside.{Held};
ghost use Rattle.qvt_store.specs.Sound.{Sound};
ghost use Rattle.qvt_types_program.specs.Program.{program_view};
ghost use Rattle.qvt_outcome.specs.Follows.{Follows};
ghost use Rattle.qvt_outcome.specs.Plans.{outcome_of, HaveFaultLines};
ghost use Rattle.qvt_outcome.specs.Steps.{GivesOrStops, IfFaultOf};
ghost use Rattle.qvt_program_inputs.specs.Start.{CanLoad};
ghost use Rattle.qvt_work.specs.Conforming.{EndConforms, PerformedConforms};
ghost use Rattle.qvt_work.specs.Ends.{left_over};
ghost use Rattle.qvt_work.specs.Run.{performed};

use crate::ends::ended;
use qvt_base::outside::Files;
use qvt_exec::answering::Answering;
use qvt_exec::run::run;
use qvt_inputs::loaded::Loaded;
use qvt_job::job::Job;
use qvt_live_store::live::LiveStore;
use qvt_outcome::plan::Plan;
use qvt_outcome::stop::Stop;
use qvt_program_exprs::table::Expressions;
use qvt_program_inputs::start::read_program_inputs;
use qvt_types_program::program::Program;
use std::alloc::Global;

/// Runs a program over its loaded inputs with the job's fuel, and makes every byte that is to be written. Every model among it conforms
/// to its metamodel.
fn run_loaded(alloc: Global, job: &Job, program: &Program, loaded: Loaded) -> Result<Plan, Stop>
    requires { Sound loaded.store }
    ensures gives { GivesOrStops outcome_of result (left_over job.now (program_view program.now) loaded.ids loaded.store) }
    ensures ready { IfOk result (λ p. HaveFaultLines p.outputs) }
    ensures no_reads { IfFaultOf result (λ file. ⊥) }
    ensures conform { IfOk result (λ plan. EndConforms job.now (program_view program.now) loaded.store) }
{
    let (store, ids) = loaded.into_parts();
    let expressions = Expressions::new(alloc, program)?;
    let reads = Answering {
        alloc,
        expressions: &expressions,
        fuel: job.fuel,
    };
    let end = run(&reads, LiveStore::new(store));
    ended(alloc, job, program, &ids, end)
}

/// Reads the inputs of a job, and runs its program over them. Every model that is to be written conforms to its metamodel.
#[tactic(auto, unfolding(qvt_work::specs::Run::performed))]
pub fn perform<F: Files>(
    alloc: Global,
    files: &mut F,
    job: &Job,
    program: &Program,
) -> Result<Plan, Stop>
    requires { CanLoad (program_view program.now) job.now.inputs }
    ensures follows { Follows outcome_of (performed job.now (program_view program.now)) (F.seen files.old) result (F.seen files.new) }
    ensures ready { IfOk result (λ p. HaveFaultLines p.outputs) }
    ensures conform { (held : Held) → (F.seen files.old).held ≡ Some held → IfOk result (λ plan. PerformedConforms job.now (program_view program.now) held) }
{
    match read_program_inputs(alloc, files, program, job.inputs.as_slice()) {
        Err(stop) => Err(stop),
        Ok(loaded) => run_loaded(alloc, job, program, loaded),
    }
}
