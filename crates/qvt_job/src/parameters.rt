//! Whether the models of a job are those of a transformation's model parameters.

ghost use Rattle.std.specs.Prelude.{◌≡◌};
ghost use Rattle.std.specs.Option.{option_copied};
ghost use Rattle.qvt_job.specs.Parameters.{is_read, is_written, times, has_one_if, is_served, unserved, is_parameter, stray, mismatch};

use crate::job::{Job, JobModel};
use qvt_base::text::Text;
use qvt_tree_types::module::ModelParam;
use qvt_tree_types::words::Direction;

fn is_read(direction: Direction) -> bool
    ensures { result ≡ is_read direction }
{
    match direction {
        Direction::Input => true,
        Direction::Output => false,
        Direction::Both => true,
    }
}

fn is_written(direction: Direction) -> bool
    ensures { result ≡ is_written direction }
{
    match direction {
        Direction::Input => false,
        Direction::Output => true,
        Direction::Both => true,
    }
}

/// How many of these are models for the parameter of this name.
fn times(models: &[JobModel], name: &str) -> usize
    ensures { result ≡ times name.now models.now }
{
    models.iter().filter(|m| name == m.model.as_str()).count()
}

/// Whether these are once the model for the parameter of this name, or not at all, as is wanted.
fn has_one_if(models: &[JobModel], name: &str, is_wanted: bool) -> bool
    ensures { result ≡ has_one_if is_wanted name.now models.now }
{
    let wanted = if is_wanted { 1 } else { 0 };
    times(models, name) == wanted
}

/// Whether the job has what a parameter reads and writes, once, and nothing else for it.
#[tactic(auto, unfolding(crate::specs::Parameters::is_served))]
fn is_served(job: &Job, parameter: &ModelParam) -> bool
    ensures { result ≡ is_served job.now parameter.now }
{
    let name = parameter.name.as_str();
    has_one_if(job.inputs.as_slice(), name, is_read(parameter.direction))
        && has_one_if(
            job.outputs.as_slice(),
            name,
            is_written(parameter.direction),
        )
}

/// The first parameter that the job does not serve.
fn unserved<'a>(job: &Job, parameters: &'a [ModelParam]) -> Option<&'a Text>
    ensures { option_copied result ≡ unserved job.now parameters.now }
{
    for parameter in parameters {
        if !is_served(job, parameter) {
            return Some(&parameter.name);
        }
    }
    None
}

fn is_parameter(parameters: &[ModelParam], name: &str) -> bool
    ensures { result ≡ is_parameter parameters.now name.now }
{
    parameters.iter().any(|p| name == p.name.as_str())
}

/// The first model that is for no parameter.
fn stray<'a>(parameters: &[ModelParam], models: &'a [JobModel]) -> Option<&'a Text>
    ensures { option_copied result ≡ stray parameters.now models.now }
{
    for model in models {
        if !is_parameter(parameters, model.model.as_str()) {
            return Some(&model.model);
        }
    }
    None
}

/// The first parameter that the job does not serve, else the first model of the job that is for none.
#[tactic(auto, unfolding(crate::specs::Parameters::mismatch))]
pub fn mismatch<'a>(job: &'a Job, parameters: &'a [ModelParam]) -> Option<&'a Text>
    ensures { option_copied result ≡ mismatch job.now parameters.now }
{
    if let Some(name) = unserved(job, parameters) {
        return Some(name);
    }
    if let Some(name) = stray(parameters, job.inputs.as_slice()) {
        return Some(name);
    }
    stray(parameters, job.outputs.as_slice())
}
