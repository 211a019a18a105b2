//! The job of the command `run`, and the program of the text that it names.

ghost use Rattle.std.specs.Prelude.{◌≡◌, ◌≤◌, length, None, IfOk};
ghost use Rattle.qvt_outcome.specs.Follows.{Follows};
ghost use Rattle.qvt_outcome.specs.Steps.{GivesOrStops, IfFaultOf, IsFaultWith, RefusedOrNoMemory, StopsBy};
ghost use Rattle.qvt_work.specs.Run.{job_in, job_read, program_in, text_in, text_read};
ghost use Rattle.qvt_job.specs.Names.{HaveNames};
ghost use Rattle.qvt_program_inputs.specs.Law.{AreAllNamed};
ghost use Rattle.qvt_program_inputs.specs.Start.{CanLoad};
ghost use Rattle.qvt_tree_types.specs.Module.{module_view};
ghost use Rattle.qvt_types.specs.Program.{program_view};

use crate::source::tree_in;
use crate::typing::typed_in;
use qvt_base::copied::Copied;
use qvt_base::outside::Files;
use qvt_base::text::Text;
use qvt_job::job::{Job, JobFault};
use qvt_job::laws::models_have_names;
use qvt_job::parameters::mismatch;
use qvt_job::read_job::read_job;
use qvt_metas::metas::Metas;
use qvt_outcome::fetch::{fetch, refused};
use qvt_outcome::refusal::Refusal;
use qvt_outcome::stop::Stop;
use qvt_program_inputs::laws::job_can_load;
use qvt_tree_types::module::Module;
use qvt_types::program::Program;
use std::alloc::Global;

/// The refusal of a job's file.
fn job_stop(alloc: Global, name: &Text, why: JobFault) -> Stop
    ensures stop { StopsBy JobFault.NoMemory Refusal.Job name.now why result }
    ensures no_reads { IsFaultWith result (λ file. ⊥) }
{
    match &why {
        JobFault::NoMemory => Stop::NoMemory,
        _ => refused(alloc, name, Refusal::Job(why)),
    }
}

/// The job of a file's bytes.
#[tactic(auto, unfolding(qvt_work::specs::Run::job_in))]
fn job_in(alloc: Global, name: &Text, bytes: &[u8]) -> Result<Job, Stop>
    ensures no_reads { IfFaultOf result (λ file. ⊥) }
    ensures gives { GivesOrStops (λ job. job) result (job_in name.now bytes.now) }
    ensures named { IfOk result (λ job. HaveNames job.inputs × HaveNames job.outputs) }
{
    models_have_names();
    match read_job(alloc, bytes) {
        Err(why) => Err(job_stop(alloc, name, why)),
        Ok(job) => Ok(job),
    }
}

/// Reads the job.
pub fn read_named_job<F: Files>(alloc: Global, files: &mut F, name: &Text) -> Result<Job, Stop>
    ensures follows { Follows (λ job. job) (job_read name.now) (F.seen files.old) result (F.seen files.new) }
    ensures named { IfOk result (λ job. HaveNames job.inputs × HaveNames job.outputs) }
{
    match fetch(alloc, files, name, 65_536) {
        Err(stop) => Err(stop),
        Ok(bytes) => job_in(alloc, name, bytes.as_slice()),
    }
}

/// The refusal of a job whose model of this name does not fit the transformation.
fn models_stop(alloc: Global, name: &Text, model: &Text) -> Stop
    ensures stop { RefusedOrNoMemory name.now (Refusal.JobModels model.now) result }
    ensures no_reads { IsFaultWith result (λ file. ⊥) }
{
    match model.copy(alloc) {
        Ok(model) => refused(alloc, name, Refusal::JobModels(model)),
        Err(_) => Stop::NoMemory,
    }
}

/// The program of a tree that is typed, and whose parameters are the models of the job.
#[tactic(auto, unfolding(qvt_work::specs::Run::program_in))]
fn program_in(
    alloc: Global,
    name: &Text,
    job: &Job,
    metas: &Metas,
    tree: &Module,
) -> Result<Program, Stop>
    requires element { metas.now.element ≡ None }
    requires metamodels { AreAllNamed metas.now }
    requires named { HaveNames job.now.inputs × HaveNames job.now.outputs }
    ensures no_reads { IfFaultOf result (λ file. ⊥) }
    ensures gives { GivesOrStops program_view result (program_in name.now job.now metas.now (module_view tree.now)) }
    ensures loads { IfOk result (λ p. CanLoad (program_view p) job.now.inputs) }
{
    job_can_load();
    match typed_in(alloc, metas, &job.text, tree) {
        Err(stop) => Err(stop),
        Ok(program) => match mismatch(job, tree.params.as_slice()) {
            Some(model) => Err(models_stop(alloc, name, model)),
            None => Ok(program),
        },
    }
}

/// The program of a file's bytes.
#[tactic(auto, unfolding(qvt_work::specs::Run::text_in))]
fn text_in(
    alloc: Global,
    name: &Text,
    job: &Job,
    metas: &Metas,
    bytes: &[u8],
) -> Result<Program, Stop>
    requires few { length bytes.now ≤ 262144 }
    requires element { metas.now.element ≡ None }
    requires metamodels { AreAllNamed metas.now }
    requires named { HaveNames job.now.inputs × HaveNames job.now.outputs }
    ensures no_reads { IfFaultOf result (λ file. ⊥) }
    ensures gives { GivesOrStops program_view result (text_in name.now job.now metas.now bytes.now) }
    ensures loads { IfOk result (λ p. CanLoad (program_view p) job.now.inputs) }
{
    match tree_in(alloc, &job.text, bytes) {
        Err(stop) => Err(stop),
        Ok(tree) => program_in(alloc, name, job, metas, &tree),
    }
}

/// Reads the text.
pub fn read_text<F: Files>(
    alloc: Global,
    files: &mut F,
    name: &Text,
    job: &Job,
    metas: &Metas,
) -> Result<Program, Stop>
    requires element { metas.now.element ≡ None }
    requires metamodels { AreAllNamed metas.now }
    requires named { HaveNames job.now.inputs × HaveNames job.now.outputs }
    ensures follows { Follows program_view (text_read name.now job.now metas.now) (F.seen files.old) result (F.seen files.new) }
    ensures loads { IfOk result (λ p. CanLoad (program_view p) job.now.inputs) }
{
    match fetch(alloc, files, &job.text, 262_144) {
        Err(stop) => Err(stop),
        Ok(bytes) => text_in(alloc, name, job, metas, bytes.as_slice()),
    }
}
