ghost use Rattle.std.specs.Prelude.{◌≡◌, IfOk, map, [], is_some, nat_lt};
ghost use Rattle.std.specs.List.{list_any};
ghost use Rattle.std.specs.Option.{option_copied};
ghost use Rattle.std.specs.Str.{bytes_eq};
ghost use Rattle.serde_json.specs.View.{view, items_view};
ghost use Rattle.qvt_json.specs.Json.{map_items};
ghost use Rattle.qvt_json.specs.Repeated.{repeated};
ghost use Rattle.qvt_json.specs.Steps.{GivesStated};
ghost use Rattle.qvt_job.specs.Job.{job_model_in, job_models_at, job_in, file_count, same_file, job_of};

use crate::job::{Job, JobFault, JobModel, JobModelList};
use crate::job_form::JobForm;
use qvt_base::copied::Copied;
use qvt_base::list_fault::ListFault;
use qvt_base::text::Text;
use qvt_json::shape::shape_fault;
use qvt_json::value::{items_at, number_at, read_value, text_at, text_or, texts_at};
use serde_json::Value;
use std::alloc::Global;

/// The greatest number of files that a job may name.
const MOST_FILES: u128 = 16;

/// The models that the items are.
fn job_models(alloc: Global, items: &Vec<Value>) -> Result<JobModelList, ListFault>
    ensures { IfOk result (λ models. models ≡ map_items job_model_in (items_view items.now.items)) }
{
    let mut models = JobModelList::new(alloc);
    for item in items {
        let file = Text::from_str(alloc, text_or(item, "file"))?;
        let model = Text::from_str(alloc, text_or(item, "model"))?;
        models.push(JobModel { file, model })?;
    }
    Ok(models)
}

/// The models of the list at a key.
fn job_models_at(alloc: Global, value: &Value, key: &str) -> Result<JobModelList, ListFault>
    ensures { IfOk result (λ models. models ≡ job_models_at key.now (view value.now)) }
{
    match items_at(value, key) {
        Some(items) => job_models(alloc, items),
        None => Ok(JobModelList::new(alloc)),
    }
}

/// The trace file of a job, if there is one.
fn trace_in(alloc: Global, value: &Value) -> Result<Option<Text>, ListFault>
    ensures { IfOk result (λ trace. trace ≡ (job_in (view value.now)).trace) }
{
    match text_at(value, "trace") {
        Some(file) => Ok(Some(Text::from_str(alloc, file)?)),
        None => Ok(None),
    }
}

/// What a value of the form of a job holds.
fn job_in(alloc: Global, value: &Value) -> Result<Job, ListFault>
    ensures { IfOk result (λ job. job ≡ job_in (view value.now)) }
{
    let fuel = number_at(value, "fuel").unwrap_or(0);
    let inputs = job_models_at(alloc, value, "inputs")?;
    let metamodels = texts_at(alloc, value, "metamodels")?;
    let outputs = job_models_at(alloc, value, "outputs")?;
    let text = Text::from_str(alloc, text_or(value, "text"))?;
    let trace = trace_in(alloc, value)?;
    Ok(Job {
        fuel,
        inputs,
        metamodels,
        outputs,
        text,
        trace,
    })
}

/// Whether the job names more files than it may.
fn has_too_many_files(job: &Job) -> bool
    ensures { result ≡ nat_lt 16 (file_count job.now) }
{
    let traces = if job.trace.is_some() { 1u128 } else { 0 };
    let models = job.inputs.len() as u128 + job.outputs.len() as u128;
    1 + traces + job.metamodels.len() as u128 + models > MOST_FILES
}

/// Whether one of these models has the file.
fn has_file(models: &[JobModel], file: &str) -> bool
    ensures { result ≡ list_any (bytes_eq file.now) (map (λ o. o.file) models.now) }
{
    for model in models {
        if file == model.file.as_str() {
            return true;
        }
    }
    false
}

/// The first file that an earlier output has too.
fn repeated_file(outputs: &[JobModel]) -> Option<&Text>
    ensures { option_copied result ≡ repeated [] (map (λ o. o.file) outputs.now) }
{
    for (i, output) in outputs.iter().enumerate() {
        if has_file(&outputs[..i], output.file.as_str()) {
            return Some(&output.file);
        }
    }
    None
}

/// The first file that is to be written twice.
fn same_file(job: &Job) -> Option<&Text>
    ensures { option_copied result ≡ same_file job.now }
{
    if let Some(file) = repeated_file(job.outputs.as_slice()) {
        return Some(file);
    }
    let Some(trace) = &job.trace else {
        return None;
    };
    if has_file(job.outputs.as_slice(), trace.as_str()) {
        return Some(trace);
    }
    None
}

/// The job of a file, or the first refusal: the file has no JSON value, the value is not of the form of a job, it names
/// too many files, or two files to be written are the same.
#[tactic(auto, unfolding(crate::specs::Job::job_of))]
pub fn read_job(alloc: Global, bytes: &[u8]) -> Result<Job, JobFault>
    ensures { GivesStated JobFault.NoMemory (λ job. job) result (job_of bytes.now) }
{
    let Some(value) = read_value(alloc, bytes)? else {
        return Err(JobFault::Json);
    };
    if let Some(path) = shape_fault(alloc, &JobForm {}, &value)? {
        return Err(JobFault::Shape(path));
    }
    let job = job_in(alloc, &value)?;
    if has_too_many_files(&job) {
        return Err(JobFault::TooManyFiles);
    }
    if let Some(file) = same_file(&job) {
        return Err(JobFault::SameFile(file.copy(alloc)?));
    }
    Ok(job)
}
