ghost use Rattle.std.specs.Prelude.{◌<◌, ◌^◌, length, IfOk};
ghost use Rattle.std.specs.List.{AllByRecursion};
ghost use Rattle.serde_json.specs.View.{view, members_view};
ghost use Rattle.qvt_json.specs.Steps.{GivesStated};
ghost use Rattle.qvt_model.specs.Reading.{feature_of, features_known, slot_read, slots_of};
ghost use Rattle.qvt_model.specs.WellFormed.{IsPlainSlot};

use crate::data::{ModelFault, SlotData, SlotList};
use crate::items::items_read;
use crate::places::Places;
use qvt_base::numbers::{ClassNo, FeatureNo};
use qvt_base::text::Text;
use qvt_dictionary::dictionary::Dictionary;
use qvt_metas::metas::Metas;
use serde_json::{Map, Value};
use std::alloc::Global;

/// The feature of the class that a slot of the object names.
#[tactic(auto, unfolding(crate::specs::Reading::feature_of))]
fn feature_of(
    alloc: Global,
    metas: &Metas,
    class: ClassNo,
    id: &str,
    name: &str,
) -> Result<FeatureNo, ModelFault>
    ensures { GivesStated ModelFault.NoMemory (λ f. f) result (feature_of metas.now class id.now name.now) }
{
    match metas.feature(class, name) {
        Some(feature) => Ok(feature),
        None => Err(ModelFault::UnknownFeature(Text::from_str(alloc, id)?)),
    }
}

/// Checks that each slot of the object names a feature of the class.
pub fn features_known(
    alloc: Global,
    metas: &Metas,
    class: ClassNo,
    id: &str,
    members: &Map<String, Value>,
) -> Result<(), ModelFault>
    ensures { GivesStated ModelFault.NoMemory (λ _. tt) result (features_known metas.now class id.now (members_view members.now.entries)) }
{
    for (name, _) in members.iter() {
        feature_of(alloc, metas, class, id, name.as_str())?;
    }
    Ok(())
}

/// A slot of the object, which may be empty.
#[tactic(auto, unfolding(crate::specs::Reading::slot_read))]
fn slot_read(
    alloc: Global,
    dictionary: &Dictionary,
    places: &Places,
    class: ClassNo,
    id: &str,
    name: &str,
    value: &Value,
) -> Result<SlotData, ModelFault>
    requires few { length places.now.ids < 2 ^ 32 }
    ensures value { GivesStated ModelFault.NoMemory (λ s. s) result (slot_read dictionary.now places.now class id.now name.now (view value.now)) }
    ensures plain { IfOk result IsPlainSlot }
{
    let feature = feature_of(alloc, dictionary.metas(), class, id, name)?;
    let Some(items) = items_read(alloc, dictionary, places, feature, value)? else {
        let id = Text::from_str(alloc, id)?;
        return Err(ModelFault::WrongValue(id, Text::from_str(alloc, name)?));
    };
    Ok(SlotData { feature, items })
}

/// The slots of the object that are not empty.
pub fn slots_of(
    alloc: Global,
    dictionary: &Dictionary,
    places: &Places,
    class: ClassNo,
    id: &str,
    members: &Map<String, Value>,
) -> Result<SlotList, ModelFault>
    requires few { length places.now.ids < 2 ^ 32 }
    ensures value { GivesStated ModelFault.NoMemory (λ ss. ss) result (slots_of dictionary.now places.now class id.now (members_view members.now.entries)) }
    ensures plain { IfOk result (AllByRecursion IsPlainSlot) }
{
    let mut slots = SlotList::new(alloc);
    for (name, value) in members.iter() {
        let slot = slot_read(alloc, dictionary, places, class, id, name.as_str(), value)?;
        if !slot.items.is_empty() {
            slots.push(slot)?;
        }
    }
    Ok(slots)
}
