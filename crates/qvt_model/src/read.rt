ghost use Rattle.std.specs.Prelude.{◌<◌, length, IfOk};
ghost use Rattle.std.specs.List.{AllByRecursion};
ghost use Rattle.serde_json.specs.View.{items_view};
ghost use Rattle.qvt_json.specs.Steps.{GivesStated};
ghost use Rattle.qvt_model.specs.Reading.{model_from, model_of};
ghost use Rattle.qvt_model.specs.WellFormed.{IsModel, IsPlainObject};

use crate::dangling::dangling;
use crate::data::{ModelData, ModelFault, ObjectList};
use crate::forms::ModelForm;
use crate::objects::{classes_of, distinct_ids, objects_known, objects_of};
use crate::places::Places;
use qvt_dictionary::dictionary::Dictionary;
use qvt_json::shape::shape_fault;
use qvt_json::value::{items_at, read_value};
use qvt_metas::metas::Metas;
use serde_json::Value;
use std::alloc::Global;

/// What the objects of a model are, by one check after the other.
#[tactic(auto, unfolding(crate::specs::Reading::model_from))]
fn model_from(
    alloc: Global,
    metas: &Metas,
    metamodel: u32,
    items: &Vec<Value>,
) -> Result<ObjectList, ModelFault>
    ensures value { GivesStated ModelFault.NoMemory (λ os. os) result (model_from metas.now metamodel (items_view items.now.items)) }
    ensures plain { IfOk result (AllByRecursion IsPlainObject) }
{
    let ids = distinct_ids(alloc, items)?;
    if ids.len() > u32::MAX as usize {
        return Err(ModelFault::NoMemory);
    }
    let classes = classes_of(alloc, metas, metamodel, items)?;
    objects_known(alloc, metas, metamodel, items)?;
    let places = Places { ids, classes };
    let dictionary = Dictionary::of(alloc, metas, metamodel)?;
    let objects = objects_of(alloc, &dictionary, metamodel, &places, items)?;
    match dangling(alloc, metas, objects.len(), objects.as_slice())? {
        Some(fault) => Err(fault),
        None => Ok(objects),
    }
}

/// The model of a metamodel that a file is, or the first check that fails: the file has no JSON value, the value is not of
/// the form of a model, two objects have one id, a class or a feature is unknown, a value is not of its feature's type, or a
/// reference leads to no object. A file of 2^32 objects or more has no room.
#[tactic(auto, unfolding(crate::specs::Reading::model_of))]
pub fn read_model(
    alloc: Global,
    bytes: &[u8],
    metas: &Metas,
    metamodel: u32,
) -> Result<ModelData, ModelFault>
    requires live { metamodel < length metas.now.metamodels }
    ensures data { GivesStated ModelFault.NoMemory (λ model. model.objects) result (model_of metas.now metamodel bytes.now) }
    ensures well_formed { IfOk result (λ model. IsModel metas.now metamodel model.objects) }
{
    let Some(value) = read_value(alloc, bytes)? else {
        return Err(ModelFault::Json);
    };
    if let Some(path) = shape_fault(alloc, &ModelForm {}, &value)? {
        return Err(ModelFault::Shape(path));
    }
    let Some(items) = items_at(&value, "objects") else {
        let objects = ObjectList::new(alloc);
        return Ok(ModelData { objects });
    };
    let objects = model_from(alloc, metas, metamodel, items)?;
    Ok(ModelData { objects })
}
