//! The first fault of a model.

ghost use Rattle.std.specs.Prelude.{◌≡◌, ◌<◌, ◌^◌, length, IfOk};
ghost use Rattle.qvt_metas.specs.Metamodels.{feature_at, features_of};
ghost use Rattle.qvt_conform.specs.declared.fault.ConformFault.TheVariants.{NoMemory};
ghost use Rattle.qvt_conform.specs.Breaches.{fault_of};
ghost use Rattle.qvt_conform.specs.Conformance.{IsSomeModel, conform_fault};
ghost use Rattle.qvt_conform.specs.Contained.{IsContainment};
ghost use Rattle.qvt_conform.specs.Items.{items_of};
ghost use Rattle.qvt_conform.specs.Lacking.{feature_fault_by, features_fault_by, object_fault_by, faults_by};
ghost use Rattle.qvt_conform.specs.Results.{TellsFault};

use crate::asked::Asked;
use crate::breach::{Breach, are_kept, breach_of};
use crate::containment::Containment;
use crate::fault::ConformFault;
use crate::links::Links;
use crate::slots::SlotTable;
use qvt_base::copied::Copied;
use qvt_base::list_fault::ListFault;
use qvt_base::numbers::FeatureNo;
use qvt_base::text::Text;
use qvt_metas::metas::Metas;
use qvt_model::data::{Datum, ModelData, ObjectData};
use std::alloc::Global;

/// A copy of a feature's name.
fn name_of(alloc: Global, metas: &Metas, feature: FeatureNo) -> Result<Text, ListFault>
    ensures { IfOk result (λ name. name ≡ (feature_at metas.now feature.0).name) }
{
    let name = Text::from_str(alloc, metas.feature_name(feature))?;
    Ok(name)
}

/// The fault that a breach of a feature of the object is.
fn fault_of(
    alloc: Global,
    metas: &Metas,
    object: &ObjectData,
    feature: FeatureNo,
    breach: Breach,
) -> Result<ConformFault, ListFault>
    ensures { IfOk result (λ fault. fault ≡ fault_of metas.now object.now feature.0 breach) }
{
    let id = object.id.copy(alloc)?;
    let name = name_of(alloc, metas, feature)?;
    match breach {
        Breach::Bounds => Ok(ConformFault::Bounds(id, name)),
        Breach::NotUnique => Ok(ConformFault::NotUnique(id, name)),
        Breach::Opposite => Ok(ConformFault::Opposite(id, name)),
    }
}

/// The first fault of a feature of an object.
#[tactic(auto, unfolding(crate::specs::Lacking::feature_fault_by))]
fn feature_fault(
    alloc: Global,
    metas: &Metas,
    links: &Links,
    place: u32,
    object: &ObjectData,
    feature: FeatureNo,
    items: &[Datum],
) -> Result<(), ConformFault>
    requires { items.now ≡ items_of object.now feature.0 }
    ensures { TellsFault NoMemory result (feature_fault_by metas.now links.now place object.now feature) }
{
    match breach_of(alloc, metas, links, place, feature, items)? {
        None => Ok(()),
        Some(breach) => Err(fault_of(alloc, metas, object, feature, breach)?),
    }
}

/// The first fault of the features of an object, in their order in its class.
fn first_fault(
    alloc: Global,
    metas: &Metas,
    links: &Links,
    place: u32,
    object: &ObjectData,
) -> Result<(), ConformFault>
    ensures { TellsFault NoMemory result (features_fault_by metas.now links.now place object.now (features_of metas.now object.now.class.0)) }
{
    let slots = object.slots.as_slice();
    let table = SlotTable::of(alloc, slots)?;
    for feature in metas.features(object.class) {
        let items = table.items(slots, *feature);
        feature_fault(alloc, metas, links, place, object, *feature, items)?;
    }
    Ok(())
}

/// The first fault of the features of an object. The slots that are there are looked at in their own order, and then which
/// features ask for one that is not: only where something is broken are all features of the class gone over.
#[tactic(auto, using(crate::proofs::Kept::nothing_told))]
fn features_fault(
    alloc: Global,
    metas: &Metas,
    links: &Links,
    asked: &Asked,
    place: u32,
    object: &ObjectData,
) -> Result<(), ConformFault>
    requires { asked.now ≡ metas.now }
    ensures { TellsFault NoMemory result (features_fault_by metas.now links.now place object.now (features_of metas.now object.now.class.0)) }
{
    let slots = object.slots.as_slice();
    if are_kept(alloc, metas, links, place, slots)? && asked.are_met(object.class, slots) {
        return Ok(());
    }
    first_fault(alloc, metas, links, place, object)
}

/// The first fault of an object.
#[tactic(auto, unfolding(crate::specs::Lacking::object_fault_by))]
fn object_fault(
    alloc: Global,
    metas: &Metas,
    links: &Links,
    containment: &Containment,
    asked: &Asked,
    place: u32,
    object: &ObjectData,
) -> Result<(), ConformFault>
    requires asked { asked.now ≡ metas.now }
    requires containment { IsContainment containment.now.contents containment.now }
    requires there { place < length containment.now.contents }
    ensures { TellsFault NoMemory result (object_fault_by metas.now links.now containment.now.contents place object.now) }
{
    if metas.is_abstract(object.class) {
        return Err(ConformFault::Abstract(object.id.copy(alloc)?));
    }
    features_fault(alloc, metas, links, asked, place, object)?;
    containment.fault(alloc, place, object)
}

/// The first fault of the objects.
fn faults(
    alloc: Global,
    metas: &Metas,
    links: &Links,
    containment: &Containment,
    objects: &[ObjectData],
) -> Result<(), ConformFault>
    requires containment { IsContainment containment.now.contents containment.now }
    requires there { length objects.now ≡ length containment.now.contents }
    requires few { length objects.now < 2 ^ 32 }
    ensures { TellsFault NoMemory result (faults_by metas.now links.now containment.now.contents 0 objects.now) }
{
    let mut asked = Asked::new(alloc, metas);
    for (i, object) in objects.iter().enumerate() {
        asked.meet(alloc, object.class)?;
        object_fault(alloc, metas, links, containment, &asked, i as u32, object)?;
    }
    Ok(())
}

/// Whether a model conforms to its metamodel, or its first fault: of its objects in order, that the class is abstract, then for
/// each feature of the class in order the bounds, the repeats and the opposite, then that the object stands in containment
/// slots more than once over the model, then that it is inside itself. The data are those of a model that was read.
pub fn conform(alloc: Global, model: &ModelData, metas: &Metas) -> Result<(), ConformFault>
    requires { IsSomeModel metas.now model.now.objects }
    ensures { TellsFault NoMemory result (conform_fault metas.now model.now.objects) }
{
    let objects = model.objects.as_slice();
    if objects.len() > u32::MAX as usize {
        return Err(ConformFault::NoMemory);
    }
    metas.are_well_formed();
    let links = Links::of(alloc, metas, objects)?;
    let containment = Containment::of(alloc, metas, objects)?;
    faults(alloc, metas, &links, &containment, objects)
}
