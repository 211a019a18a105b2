//! The files of the models that a run writes.

ghost use Rattle.std.specs.Prelude.{◌≡◌, IfOk, map, position};
ghost use Rattle.std.specs.Str.{bytes_eq};
ghost use Rattle.qvt_outcome.specs.Outcome.{write_fault_line};
ghost use Rattle.qvt_outcome.specs.Plans.{HaveFaultLines, file_of, files_in};
ghost use Rattle.qvt_store.specs.Sound.{Sound};
ghost use Rattle.std.specs.List.{AllByRecursion};
ghost use Rattle.qvt_outputs.specs.Left.{extent_named, model_file, text_in};
ghost use Rattle.qvt_outputs.specs.Conforming.{IsOutput};

use crate::output::output_of;
use qvt_base::list_fault::ListFault;
use qvt_base::lists::Bytes;
use qvt_base::seq::Seq;
use qvt_job::job::JobModel;
use qvt_model::write::write_model;
use qvt_outcome::plan::Output;
use qvt_report::extents::is_written;
use qvt_store::extent::Extent;
use qvt_store::store::Store;
use std::alloc::Global;

/// Where the first extent of this name stands.
fn extent_named(extents: &[Extent], name: &str) -> Option<usize>
    ensures { result ≡ position (λ x. bytes_eq name.now x.name) extents.now }
{
    extents
        .iter()
        .position(|extent| name == extent.name.as_str())
}

/// The text of the model of this name. A job whose models are those of the program names models alone that are written;
/// any other is told as want of memory.
#[tactic(auto, using(crate::proofs::Conforms::is_output))]
fn model_bytes(alloc: Global, store: &Store, name: &str) -> Result<Bytes, ListFault>
    requires { Sound store.now }
    ensures text { IfOk result (λ bytes. bytes ≡ text_in store.now (extent_named store.now name.now)) }
    ensures there { IfOk result (λ bytes. IsOutput store.now name.now) }
{
    let extents = store.extents().as_slice();
    let Some(place) = extent_named(extents, name) else {
        return Err(ListFault::NoMemory);
    };
    let Ok(number) = u32::try_from(place) else {
        return Err(ListFault::NoMemory);
    };
    if !is_written(&extents[place]) {
        return Err(ListFault::NoMemory);
    }
    match write_model(alloc, store, number) {
        Ok(bytes) => Ok(bytes),
        Err(_) => Err(ListFault::NoMemory),
    }
}

/// The file of an output of a job.
fn model_output(alloc: Global, store: &Store, model: &JobModel) -> Result<Output, ListFault>
    requires { Sound store.now }
    ensures file { IfOk result (λ o. file_of o ≡ model_file store.now model.now) }
    ensures ready { IfOk result (λ o. o.fault_line ≡ write_fault_line o.file) }
    ensures there { IfOk result (λ o. IsOutput store.now model.now.model) }
{
    let bytes = model_bytes(alloc, store, model.model.as_str())?;
    output_of(alloc, &model.file, bytes)
}

/// The files of the outputs of a job.
pub fn model_outputs(
    alloc: Global,
    store: &Store,
    models: &[JobModel],
) -> Result<Seq<Output>, ListFault>
    requires { Sound store.now }
    ensures files { IfOk result (λ outputs. files_in outputs ≡ map (model_file store.now) models.now) }
    ensures ready { IfOk result (λ outputs. HaveFaultLines outputs) }
    ensures there { IfOk result (λ outputs. AllByRecursion (λ o. IsOutput store.now o.model) models.now) }
{
    let mut outputs = Seq::new(alloc);
    for model in models {
        outputs.push(model_output(alloc, store, model)?)?;
    }
    Ok(outputs)
}
