ghost use Rattle.std.specs.Prelude.{◌<◌, ◌^◌, length, IfOk};
ghost use Rattle.std.specs.List.{AllByRecursion};
ghost use Rattle.serde_json.specs.View.{view, items_view};
ghost use Rattle.qvt_json.specs.Steps.{GivesStated, each_item, walk_items};
ghost use Rattle.qvt_model.specs.Reading.{id_of, slots_in, distinct_ids, class_read, object_known, slots_of, object_read};
ghost use Rattle.qvt_model.specs.WellFormed.{IsPlainSlot, IsPlainObject};

use crate::data::{ModelFault, ObjectData, ObjectList, SlotList};
use crate::places::Places;
use crate::slots::{features_known, slots_of};
use qvt_base::lists::ClassNoList;
use qvt_base::numbers::ClassNo;
use qvt_base::text::Text;
use qvt_dictionary::dictionary::Dictionary;
use qvt_dictionary::texts::TextSet;
use qvt_json::value::{members_at, text_or};
use qvt_metas::metas::Metas;
use serde_json::Value;
use std::alloc::Global;

/// The ids of the objects, which differ.
#[tactic(auto, unfolding(crate::specs::Reading::distinct_ids))]
pub fn distinct_ids(alloc: Global, items: &Vec<Value>) -> Result<TextSet, ModelFault>
    ensures { GivesStated ModelFault.NoMemory (λ ids. ids) result (distinct_ids (items_view items.now.items)) }
{
    let mut ids = TextSet::new(alloc);
    for item in items {
        let id = text_or(item, "id");
        if ids.contains(id) {
            return Err(ModelFault::SameId(Text::from_str(alloc, id)?));
        }
        ids.add(alloc, id)?;
    }
    Ok(ids)
}

/// The class of the metamodel that the object names.
#[tactic(auto, unfolding(crate::specs::Reading::class_read))]
fn class_read(
    alloc: Global,
    metas: &Metas,
    metamodel: u32,
    item: &Value,
) -> Result<ClassNo, ModelFault>
    ensures { GivesStated ModelFault.NoMemory (λ c. c) result (class_read metas.now metamodel (view item.now)) }
{
    match metas.class(metamodel, text_or(item, "class")) {
        Some(class) => Ok(class),
        None => Err(ModelFault::UnknownClass(Text::from_str(alloc, text_or(item, "id"))?)),
    }
}

/// The classes of the objects.
pub fn classes_of(
    alloc: Global,
    metas: &Metas,
    metamodel: u32,
    items: &Vec<Value>,
) -> Result<ClassNoList, ModelFault>
    ensures { GivesStated ModelFault.NoMemory (λ cs. cs) result (each_item (class_read metas.now metamodel) (items_view items.now.items)) }
{
    let mut classes = ClassNoList::new(alloc);
    for item in items {
        classes.push(class_read(alloc, metas, metamodel, item)?)?;
    }
    Ok(classes)
}

/// Checks that the slots of the object name features of its class.
#[tactic(auto, unfolding(crate::specs::Reading::object_known))]
fn object_known(
    alloc: Global,
    metas: &Metas,
    metamodel: u32,
    item: &Value,
) -> Result<(), ModelFault>
    ensures { GivesStated ModelFault.NoMemory (λ _. tt) result (object_known metas.now metamodel (view item.now)) }
{
    let class = class_read(alloc, metas, metamodel, item)?;
    match members_at(item, "slots") {
        Some(members) => features_known(alloc, metas, class, text_or(item, "id"), members),
        None => Ok(()),
    }
}

/// Checks that the slots of the objects name features of their classes.
pub fn objects_known(
    alloc: Global,
    metas: &Metas,
    metamodel: u32,
    items: &Vec<Value>,
) -> Result<(), ModelFault>
    ensures { GivesStated ModelFault.NoMemory (λ _. tt) result (walk_items (object_known metas.now metamodel) (items_view items.now.items)) }
{
    for item in items {
        object_known(alloc, metas, metamodel, item)?;
    }
    Ok(())
}

/// The slots of an object that are not empty.
fn object_slots(
    alloc: Global,
    dictionary: &Dictionary,
    places: &Places,
    class: ClassNo,
    item: &Value,
) -> Result<SlotList, ModelFault>
    requires few { length places.now.ids < 2 ^ 32 }
    ensures value { GivesStated ModelFault.NoMemory (λ ss. ss) result (slots_of dictionary.now places.now class (id_of (view item.now)) (slots_in (view item.now))) }
    ensures plain { IfOk result (AllByRecursion IsPlainSlot) }
{
    match members_at(item, "slots") {
        Some(members) => slots_of(
            alloc,
            dictionary,
            places,
            class,
            text_or(item, "id"),
            members,
        ),
        None => Ok(SlotList::new(alloc)),
    }
}

/// An object, whose references are not checked yet.
#[tactic(auto, unfolding(crate::specs::Reading::object_read))]
fn object_read(
    alloc: Global,
    dictionary: &Dictionary,
    metamodel: u32,
    places: &Places,
    item: &Value,
) -> Result<ObjectData, ModelFault>
    requires few { length places.now.ids < 2 ^ 32 }
    ensures value { GivesStated ModelFault.NoMemory (λ o. o) result (object_read dictionary.now metamodel places.now (view item.now)) }
    ensures plain { IfOk result IsPlainObject }
{
    let class = class_read(alloc, dictionary.metas(), metamodel, item)?;
    let slots = object_slots(alloc, dictionary, places, class, item)?;
    let id = Text::from_str(alloc, text_or(item, "id"))?;
    Ok(ObjectData { class, id, slots })
}

/// The objects, whose references are not checked yet.
pub fn objects_of(
    alloc: Global,
    dictionary: &Dictionary,
    metamodel: u32,
    places: &Places,
    items: &Vec<Value>,
) -> Result<ObjectList, ModelFault>
    requires few { length places.now.ids < 2 ^ 32 }
    ensures value { GivesStated ModelFault.NoMemory (λ os. os) result (each_item (object_read dictionary.now metamodel places.now) (items_view items.now.items)) }
    ensures plain { IfOk result (AllByRecursion IsPlainObject) }
{
    let mut objects = ObjectList::new(alloc);
    for item in items {
        objects.push(object_read(alloc, dictionary, metamodel, places, item)?)?;
    }
    Ok(objects)
}
