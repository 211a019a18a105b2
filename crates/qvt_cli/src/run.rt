//! The command `run`: a job, and all that it names.

ghost use Rattle.std.specs.Prelude.{◌≡◌, None, Some, IfOk};
ghost use Rattle.qvt_base.specs.Outside.{Held};
ghost use Rattle.qvt_outcome.specs.Follows.{Follows};
ghost use Rattle.qvt_outcome.specs.Plans.{outcome_of, HaveFaultLines};
ghost use Rattle.qvt_work.specs.Conforming.{AfterJobConforms, AfterMetasConforms, RunConforms};
ghost use Rattle.qvt_work.specs.Run.{after_metas, after_job, run_of};
ghost use Rattle.qvt_job.specs.Names.{HaveNames};
ghost use Rattle.qvt_program_inputs.specs.Law.{AreAllNamed};

use crate::program::perform;
use qvt_base::outside::Files;
use qvt_base::text::Text;
use qvt_cli_reading::job::{read_named_job, read_text};
use qvt_cli_reading::metas::read_metamodels;
use qvt_job::job::Job;
use qvt_metas::metas::Metas;
use qvt_outcome::plan::Plan;
use qvt_outcome::stop::Stop;
use std::alloc::Global;

/// Reads the text, then the inputs, and runs it.
fn perform_with_metas<F: Files>(
    alloc: Global,
    files: &mut F,
    name: &Text,
    job: &Job,
    metas: &Metas,
) -> Result<Plan, Stop>
    requires element { metas.now.element ≡ None }
    requires metamodels { AreAllNamed metas.now }
    requires named { HaveNames job.now.inputs × HaveNames job.now.outputs }
    ensures follows { Follows outcome_of (after_metas name.now job.now metas.now) (F.seen files.old) result (F.seen files.new) }
    ensures ready { IfOk result (λ p. HaveFaultLines p.outputs) }
    ensures conform { (held : Held) → (F.seen files.old).held ≡ Some held → IfOk result (λ plan. AfterMetasConforms name.now job.now metas.now held) }
{
    match read_text(alloc, files, name, job, metas) {
        Err(stop) => Err(stop),
        Ok(program) => perform(alloc, files, job, &program),
    }
}

/// Reads the metamodels, then the text, and runs it.
fn perform_job<F: Files>(alloc: Global, files: &mut F, name: &Text, job: &Job) -> Result<Plan, Stop>
    requires { HaveNames job.now.inputs × HaveNames job.now.outputs }
    ensures follows { Follows outcome_of (after_job name.now job.now) (F.seen files.old) result (F.seen files.new) }
    ensures ready { IfOk result (λ p. HaveFaultLines p.outputs) }
    ensures conform { (held : Held) → (F.seen files.old).held ≡ Some held → IfOk result (λ plan. AfterJobConforms name.now job.now held) }
{
    match read_metamodels(alloc, files, job.metamodels.as_slice()) {
        Err(stop) => Err(stop),
        Ok(metas) => perform_with_metas(alloc, files, name, job, &metas),
    }
}

/// Reads a job and all that it names, and runs it. Every model that is to be written conforms to its metamodel.
pub fn perform_run<F: Files>(alloc: Global, files: &mut F, name: &Text) -> Result<Plan, Stop>
    ensures follows { Follows outcome_of (run_of name.now) (F.seen files.old) result (F.seen files.new) }
    ensures ready { IfOk result (λ p. HaveFaultLines p.outputs) }
    ensures conform { (held : Held) → (F.seen files.old).held ≡ Some held → IfOk result (λ plan. RunConforms name.now held) }
{
    match read_named_job(alloc, files, name) {
        Err(stop) => Err(stop),
        Ok(job) => perform_job(alloc, files, name, &job),
    }
}
