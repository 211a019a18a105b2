//! A model of a file, which conforms to its metamodel.

ghost use Rattle.std.specs.Prelude.{◌≡◌, ◌+◌, ◌<◌, ◌≤◌, length, nat_lt, IfOk};
ghost use Rattle.qvt_model.specs.WellFormed.{IsModel};
ghost use Rattle.qvt_model.specs.Conforming.{Conforms};
ghost use Rattle.qvt_outcome.specs.Follows.{Follows};
ghost use Rattle.qvt_outcome.specs.Steps.{GivesOrStops, IfFaultOf, IsFaultWith, StopsBy};
ghost use Rattle.qvt_store.specs.Limits.{most_objects};
ghost use Rattle.qvt_inputs.specs.Conforming.{conforming, model_in, model_read};

use qvt_base::outside::Files;
use qvt_base::text::Text;
use qvt_conform::conform::conform;
use qvt_conform::fault::ConformFault;
use qvt_conformed::laws::faultless_conforms;
use qvt_metas::metas::Metas;
use qvt_model::data::{ModelData, ModelFault};
use qvt_model::read::read_model;
use qvt_outcome::fetch::{fetch, refused};
use qvt_outcome::refusal::Refusal;
use qvt_outcome::stop::Stop;
use qvt_store::limits::MOST_OBJECTS;
use std::alloc::Global;

/// The refusal of a model's file.
fn model_stop(alloc: Global, name: &Text, why: ModelFault) -> Stop
    ensures stop { StopsBy ModelFault.NoMemory Refusal.Model name.now why result }
    ensures no_reads { IsFaultWith result (λ file. ⊥) }
{
    match &why {
        ModelFault::NoMemory => Stop::NoMemory,
        _ => refused(alloc, name, Refusal::Model(why)),
    }
}

/// The refusal of a model that does not conform.
fn conform_stop(alloc: Global, name: &Text, why: ConformFault) -> Stop
    ensures stop { StopsBy ConformFault.NoMemory Refusal.Conform name.now why result }
    ensures no_reads { IsFaultWith result (λ file. ⊥) }
{
    match &why {
        ConformFault::NoMemory => Stop::NoMemory,
        _ => refused(alloc, name, Refusal::Conform(why)),
    }
}

/// Whether these objects, after so many others, are more than a store holds.
fn are_too_many(before: u32, count: usize) -> bool
    requires { before ≤ most_objects }
    ensures { result ≡ nat_lt most_objects (before + count) }
{
    count > MOST_OBJECTS - before as usize
}

/// The model itself, if with the objects before it there are few enough, and it conforms.
#[tactic(auto, unfolding(crate::specs::Conforming::conforming))]
fn conforming(
    alloc: Global,
    metas: &Metas,
    metamodel: u32,
    before: u32,
    name: &Text,
    model: ModelData,
) -> Result<ModelData, Stop>
    requires few { before ≤ most_objects }
    requires model { IsModel metas.now metamodel model.objects }
    ensures no_reads { IfFaultOf result (λ file. ⊥) }
    ensures gives { GivesOrStops (λ m. m.objects) result (conforming metas.now before name.now model.objects) }
    ensures same { IfOk result (λ m. m.objects ≡ model.objects) }
    ensures room { IfOk result (λ m. before + length m.objects ≤ most_objects) }
    ensures conforms { IfOk result (λ m. Conforms metas.now m.objects) }
{
    faultless_conforms();
    let _metamodel = metamodel;
    let count = model.objects.len();
    if are_too_many(before, count) {
        return Err(refused(alloc, name, Refusal::TooManyObjects));
    }
    match conform(alloc, &model, metas) {
        Err(why) => Err(conform_stop(alloc, name, why)),
        Ok(()) => Ok(model),
    }
}

/// The model that the bytes of a file are, if it conforms.
#[tactic(auto, unfolding(crate::specs::Conforming::model_in))]
fn model_in(
    alloc: Global,
    metas: &Metas,
    metamodel: u32,
    before: u32,
    name: &Text,
    bytes: &[u8],
) -> Result<ModelData, Stop>
    requires few { before ≤ most_objects }
    requires live { metamodel < length metas.now.metamodels }
    ensures no_reads { IfFaultOf result (λ file. ⊥) }
    ensures gives { GivesOrStops (λ m. m.objects) result (model_in metas.now metamodel before name.now bytes.now) }
    ensures model { IfOk result (λ m. IsModel metas.now metamodel m.objects) }
    ensures room { IfOk result (λ m. before + length m.objects ≤ most_objects) }
    ensures conforms { IfOk result (λ m. Conforms metas.now m.objects) }
{
    match read_model(alloc, bytes, metas, metamodel) {
        Err(why) => Err(model_stop(alloc, name, why)),
        Ok(model) => conforming(alloc, metas, metamodel, before, name, model),
    }
}

/// Reads the model of a file, which is one of the metamodel and conforms to it, after models with so many objects.
pub fn read_conforming<F: Files>(
    alloc: Global,
    files: &mut F,
    metas: &Metas,
    metamodel: u32,
    before: u32,
    name: &Text,
) -> Result<ModelData, Stop>
    requires few { before ≤ most_objects }
    requires live { metamodel < length metas.now.metamodels }
    ensures follows { Follows (λ m. m.objects) (model_read metas.now metamodel before name.now) (F.seen files.old) result (F.seen files.new) }
    ensures model { IfOk result (λ m. IsModel metas.now metamodel m.objects) }
    ensures room { IfOk result (λ m. before + length m.objects ≤ most_objects) }
    ensures conforms { IfOk result (λ m. Conforms metas.now m.objects) }
{
    match fetch(alloc, files, name, 16_777_216) {
        Err(stop) => Err(stop),
        Ok(bytes) => model_in(alloc, metas, metamodel, before, name, bytes.as_slice()),
    }
}
