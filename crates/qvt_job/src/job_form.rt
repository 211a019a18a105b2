ghost use Rattle.qvt_job.specs.Job.{job_model_form, job_form};

use qvt_base::list_fault::ListFault;
use qvt_base::text::Text;
use qvt_json::leaves::{CountForm, FileForm, NameForm};
use qvt_json::shape::{Form, ListOf, optional_fault, required_fault};
use qvt_json::value::has_only;
use serde_json::Value;
use std::alloc::Global;

/// A model of a job.
pub struct JobModelForm {}

impl Form for JobModelForm {
    ghost form = { λ f. job_model_form };

    #[tactic(auto, unfolding(crate::specs::Job::job_model_form))]
    fn fault(&self, alloc: Global, value: &Value) -> Result<Option<Text>, ListFault> {
        if !has_only(value, &["file", "model"]) {
            return Ok(Some(Text::new(alloc)));
        }
        if let Some(path) = required_fault(alloc, value, "file", &FileForm {})? {
            return Ok(Some(path));
        }
        required_fault(alloc, value, "model", &NameForm {})
    }
}

/// A job.
pub struct JobForm {}

impl Form for JobForm {
    ghost form = { λ f. job_form };

    #[tactic(auto, unfolding(crate::specs::Job::job_form))]
    fn fault(&self, alloc: Global, value: &Value) -> Result<Option<Text>, ListFault> {
        if !has_only(
            value,
            &["fuel", "inputs", "metamodels", "outputs", "text", "trace"],
        ) {
            return Ok(Some(Text::new(alloc)));
        }
        if let Some(path) = required_fault(
            alloc,
            value,
            "fuel",
            &CountForm {
                low: 0,
                high: 1_000_000_000,
            },
        )? {
            return Ok(Some(path));
        }
        if let Some(path) = required_fault(
            alloc,
            value,
            "inputs",
            &ListOf {
                item: JobModelForm {},
            },
        )? {
            return Ok(Some(path));
        }
        if let Some(path) = required_fault(
            alloc,
            value,
            "metamodels",
            &ListOf { item: FileForm {} },
        )? {
            return Ok(Some(path));
        }
        if let Some(path) = required_fault(
            alloc,
            value,
            "outputs",
            &ListOf {
                item: JobModelForm {},
            },
        )? {
            return Ok(Some(path));
        }
        if let Some(path) = required_fault(alloc, value, "text", &FileForm {})? {
            return Ok(Some(path));
        }
        optional_fault(alloc, value, "trace", &FileForm {})
    }
}
