ghost use Rattle.std.specs.Prelude.{◌≡◌, [], None, eqb, suc, map, string_bytes, option_map, IsTrue, IfOk, IfErr, OnOk};
ghost use Rattle.std.specs.List.{filter_map, AllByRecursion};
ghost use Rattle.qvt_repeats.specs.Repeats.{repeated_by};
ghost use Rattle.serde_json.specs.Data.{string, object, no_members, put};
ghost use Rattle.serde_json.specs.View.{view, members_view};
ghost use Rattle.qvt_metas.specs.Metamodels.{class_at, feature_at, features_of, has_feature};
ghost use Rattle.qvt_store.specs.Contents.{class_of, extent_at, is_extent, is_live, is_model};
ghost use Rattle.qvt_store.specs.Sound.{Sound};
ghost use Rattle.qvt_model.specs.Extents.{own_id, numbers, data_of};
ghost use Rattle.qvt_model.specs.Written.{model_text};
ghost use Rattle.qvt_model.specs.Writing.{value_written, values_written, head_of, list_value, slot_written, put_some, members_onto, object_written, objects_written, model_written};

use crate::data::ModelFault;
use crate::numbers::NumberIndex;
use qvt_base::list_fault::ListFault;
use qvt_base::lists::Bytes;
use qvt_base::numbers::{FeatureNo, Oid};
use qvt_json::written::write_value;
use qvt_metas::metas::Metas;
use qvt_store::store::Store;
use qvt_value::value::Value as Item;
use serde_json::{Map, Value, json};
use std::alloc::Global;

/// The numbers of the objects, in order.
fn numbers_of(alloc: Global, members: &[Oid]) -> Result<NumberIndex, ListFault>
    requires { repeated_by eqb [] (numbers members.now) ≡ None }
    ensures { IfOk result (λ xs. xs ≡ numbers members.now) }
{
    let mut places = NumberIndex::new(alloc);
    for member in members {
        places.add(member.0)?;
    }
    Ok(places)
}

/// A text as a JSON value.
fn text_value(alloc: Global, text: &str) -> Result<Value, ListFault>
    ensures { IfOk result (λ v. view v ≡ string text.now) }
{
    match String::from_str(alloc, text) {
        Ok(text) => Ok(Value::String(text)),
        Err(_) => Err(ListFault::NoMemory),
    }
}

/// The id of the object at this place, from 0: `o` and its position, from 1.
#[tactic(auto, unfolding(crate::specs::Extents::own_id))]
fn id_text(alloc: Global, place: usize) -> Result<String, ListFault>
    ensures { IfOk result (λ text. string_bytes text ≡ own_id (suc place)) }
{
    let position = place as u128 + 1;
    match format!(in alloc; "o{position}") {
        Ok(text) => Ok(text),
        Err(_) => Err(ListFault::NoMemory),
    }
}

/// What is written for a value of a slot, None for what stands in no slot.
fn value_written(
    alloc: Global,
    metas: &Metas,
    places: &NumberIndex,
    value: &Item,
) -> Result<Option<Value>, ListFault>
    ensures { IfOk result (λ o. option_map view o ≡ value_written metas.now places.now value.now) }
{
    match value {
        Item::Bool(flag) => Ok(Some(Value::Bool(*flag))),
        Item::Int(number) => Ok(Some(Value::from(*number))),
        Item::Str(text) => Ok(Some(text_value(alloc, text.as_str())?)),
        Item::Enum(l) => {
            let name = metas.literal_name(l.metamodel, l.enumeration, l.literal);
            Ok(Some(text_value(alloc, name)?))
        }
        Item::Obj(object) => match places.position(object.0) {
            Some(place) => Ok(Some(Value::String(id_text(alloc, place)?))),
            None => Ok(None),
        },
        Item::Null => Ok(None),
        Item::Coll(_, _) => Ok(None),
        Item::Invalid(_, _) => Ok(None),
    }
}

/// What is written for the values of a slot.
fn values_written(
    alloc: Global,
    metas: &Metas,
    places: &NumberIndex,
    values: &[Item],
) -> Result<Vec<Value>, ListFault>
    ensures { IfOk result (λ vs. map view vs.items ≡ filter_map (value_written metas.now places.now) values.now) }
{
    let mut written = Vec::new(alloc);
    for value in values {
        if let Some(value) = value_written(alloc, metas, places, value)? {
            let Ok(()) = written.push(value) else {
                return Err(ListFault::NoMemory);
            };
        }
    }
    Ok(written)
}

/// What is written for the value of a slot of upper bound 1.
fn first_written(
    alloc: Global,
    metas: &Metas,
    places: &NumberIndex,
    values: &[Item],
) -> Result<Option<Value>, ListFault>
    ensures { IfOk result (λ o. option_map view o ≡ head_of (filter_map (value_written metas.now places.now) values.now)) }
{
    for value in values {
        if let Some(value) = value_written(alloc, metas, places, value)? {
            return Ok(Some(value));
        }
    }
    Ok(None)
}

/// What is written for the values of a slot of another upper bound.
fn list_written(
    alloc: Global,
    metas: &Metas,
    places: &NumberIndex,
    values: &[Item],
) -> Result<Option<Value>, ListFault>
    ensures { IfOk result (λ o. option_map view o ≡ list_value (filter_map (value_written metas.now places.now) values.now)) }
{
    let written = values_written(alloc, metas, places, values)?;
    if written.is_empty() {
        return Ok(None);
    }
    Ok(Some(Value::Array(written)))
}

/// What is written for a slot, None where it is empty.
fn slot_written(
    alloc: Global,
    metas: &Metas,
    places: &NumberIndex,
    feature: FeatureNo,
    values: &[Item],
) -> Result<Option<Value>, ListFault>
    ensures { IfOk result (λ o. option_map view o ≡ slot_written metas.now feature (filter_map (value_written metas.now places.now) values.now)) }
{
    if metas.shape(feature).upper == Some(1) {
        return first_written(alloc, metas, places, values);
    }
    list_written(alloc, metas, places, values)
}

/// Puts a slot among the members.
fn put_slot(
    alloc: Global,
    name: &str,
    value: Value,
    members: &mut Map<String, Value>,
) -> Result<(), ListFault>
    ensures { OnOk result (members_view members.new.entries ≡ put name.now (view value) (members_view members.old.entries)) }
{
    let Ok(key) = String::from_str(alloc, name) else {
        return Err(ListFault::NoMemory);
    };
    let Ok(_) = members.insert(key, value) else {
        return Err(ListFault::NoMemory);
    };
    Ok(())
}

/// Puts a slot among the members, if it is not empty.
fn put_some(
    alloc: Global,
    name: &str,
    value: Option<Value>,
    members: &mut Map<String, Value>,
) -> Result<(), ListFault>
    ensures { OnOk result (members_view members.new.entries ≡ put_some name.now (option_map view value) (members_view members.old.entries)) }
{
    match value {
        Some(value) => put_slot(alloc, name, value, members),
        None => Ok(()),
    }
}

/// The features of an object.
fn features_of(store: &Store, owner: Oid) -> &[FeatureNo]
    requires { IsTrue (is_live store.now owner.0) }
    ensures { result.now ≡ features_of store.now.metas (class_of store.now owner.0) }
{
    store.metas().features(store.class_of(owner))
}

/// The name of an object's class.
fn class_name_of(store: &Store, owner: Oid) -> &str
    requires { IsTrue (is_live store.now owner.0) }
    ensures { result.now ≡ (class_at store.now.metas (class_of store.now owner.0)).name }
{
    store.metas().class_name(store.class_of(owner))
}

/// The name of a feature.
fn feature_name_of(store: &Store, feature: FeatureNo) -> &str
    ensures { result.now ≡ (feature_at store.now.metas feature.0).name }
{
    store.metas().feature_name(feature)
}

/// What is written for a slot of an object.
fn feature_written(
    alloc: Global,
    store: &Store,
    places: &NumberIndex,
    owner: Oid,
    feature: FeatureNo,
) -> Result<Option<Value>, ListFault>
    requires live { IsTrue (is_live store.now owner.0) }
    requires there { IsTrue (has_feature store.now.metas (class_of store.now owner.0) feature.0) }
    ensures { IfOk result (λ o. option_map view o ≡ slot_written store.now.metas feature (values_written store.now places.now owner.0 feature)) }
{
    slot_written(
        alloc,
        store.metas(),
        places,
        feature,
        store.slot(owner, feature),
    )
}

/// What is written for the slots of an object, by the names of the features.
fn members_written(
    alloc: Global,
    store: &Store,
    places: &NumberIndex,
    owner: Oid,
) -> Result<Map<String, Value>, ListFault>
    requires { IsTrue (is_live store.now owner.0) }
    ensures { IfOk result (λ ms. members_view ms.entries ≡ members_onto store.now places.now owner.0 no_members (features_of store.now.metas (class_of store.now owner.0))) }
{
    let mut members = Map::new(alloc);
    for feature in features_of(store, owner) {
        let value = feature_written(alloc, store, places, owner, *feature)?;
        put_some(alloc, feature_name_of(store, *feature), value, &mut members)?;
    }
    Ok(members)
}

/// What is written for the slots of an object.
fn slots_written(
    alloc: Global,
    store: &Store,
    places: &NumberIndex,
    owner: Oid,
) -> Result<Value, ListFault>
    requires { IsTrue (is_live store.now owner.0) }
    ensures { IfOk result (λ v. view v ≡ object (members_onto store.now places.now owner.0 no_members (features_of store.now.metas (class_of store.now owner.0)))) }
{
    Ok(Value::Object(members_written(alloc, store, places, owner)?))
}

/// What is written for the object at this place, from 0.
fn object_written(
    alloc: Global,
    store: &Store,
    places: &NumberIndex,
    place: usize,
    owner: Oid,
) -> Result<Value, ListFault>
    requires { IsTrue (is_live store.now owner.0) }
    ensures { IfOk result (λ v. view v ≡ object_written store.now places.now (suc place) owner.0) }
{
    let id = id_text(alloc, place)?;
    let slots = slots_written(alloc, store, places, owner)?;
    match json!(in alloc; {"class": class_name_of(store, owner), "id": id.as_str(), "slots": slots})
    {
        Ok(value) => Ok(value),
        Err(_) => Err(ListFault::NoMemory),
    }
}

/// What is written for the objects.
fn objects_written(
    alloc: Global,
    store: &Store,
    places: &NumberIndex,
    members: &[Oid],
) -> Result<Vec<Value>, ListFault>
    requires { AllByRecursion (λ o. IsTrue (is_live store.now o.0)) members.now }
    ensures { IfOk result (λ vs. map view vs.items ≡ objects_written store.now places.now 1 (numbers members.now)) }
{
    let mut written = Vec::new(alloc);
    for (place, member) in members.iter().enumerate() {
        let value = object_written(alloc, store, places, place, *member)?;
        let Ok(()) = written.push(value) else {
            return Err(ListFault::NoMemory);
        };
    }
    Ok(written)
}

/// The value that is written for the objects.
fn model_written(alloc: Global, store: &Store, members: &[Oid]) -> Result<Value, ListFault>
    requires new { repeated_by eqb [] (numbers members.now) ≡ None }
    requires live { AllByRecursion (λ o. IsTrue (is_live store.now o.0)) members.now }
    ensures { IfOk result (λ v. view v ≡ model_written store.now (numbers members.now)) }
{
    let places = numbers_of(alloc, members)?;
    let objects = Value::Array(objects_written(alloc, store, &places, members)?);
    match json!(in alloc; {"objects": objects}) {
        Ok(value) => Ok(value),
        Err(_) => Err(ListFault::NoMemory),
    }
}

/// The text of a model: its objects in order, each under the id `o` and its position, from 1.
pub fn write_model(alloc: Global, store: &Store, extent: u32) -> Result<Bytes, ModelFault>
    requires live { IsTrue (is_extent store.now extent) }
    requires model { IsTrue (is_model store.now extent) }
    requires writable { IsTrue (extent_at store.now extent).writable }
    requires sound { Sound store.now }
    ensures text { IfOk result (λ bytes. bytes ≡ model_text store.now.metas (data_of store.now extent)) }
    ensures fault { IfErr result (λ fault. fault ≡ ModelFault.NoMemory) }
{
    store.is_whole();
    let value = model_written(alloc, store, store.extent(extent))?;
    Ok(write_value(alloc, &value)?)
}
