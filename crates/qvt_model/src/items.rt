ghost use Rattle.std.specs.Prelude.{◌≡◌, ◌<◌, ◌^◌, length, IfOk, IfSome, option_map, option_and_then};
ghost use Rattle.std.specs.List.{AllByRecursion};
ghost use Rattle.serde_json.specs.Find.{as_str};
ghost use Rattle.serde_json.specs.View.{view, items_view};
ghost use Rattle.qvt_metas.specs.Named.{literal_named};
ghost use Rattle.qvt_json.specs.Steps.{all_items};
ghost use Rattle.qvt_model.specs.Reading.{class_at_place, ref_of, literal_in, datum_of, one_item, items_read};
ghost use Rattle.qvt_model.specs.WellFormed.{IsPlainDatum};

use crate::data::{Datum, DatumList};
use crate::places::Places;
use qvt_base::list_fault::ListFault;
use qvt_base::numbers::{ClassNo, FeatureNo};
use qvt_base::text::Text;
use qvt_dictionary::dictionary::Dictionary;
use qvt_json::leaves::is_id;
use qvt_metas::info::TypeKind;
use qvt_metas::metas::Metas;
use qvt_value::value::LiteralRef;
use serde_json::Value;
use std::alloc::Global;

/// The class of the object at this place.
fn class_at_place(places: &Places, place: usize) -> ClassNo
    ensures { result ≡ class_at_place places.now place }
{
    if place < places.classes.len() {
        places.classes.as_slice()[place]
    } else {
        ClassNo(0)
    }
}

/// The object of this id, if it is of the class. A reference to no object is one past the last.
#[tactic(auto, unfolding(crate::specs::Reading::ref_of))]
fn ref_of(metas: &Metas, places: &Places, class: ClassNo, id: &str) -> Option<Datum>
    requires few { length places.now.ids < 2 ^ 32 }
    ensures value { result ≡ ref_of metas.now places.now class id.now }
    ensures plain { IfSome result IsPlainDatum }
{
    if !is_id(id) {
        return None;
    }
    let Some(place) = places.ids.position(id) else {
        return Some(Datum::Ref(places.ids.len() as u32));
    };
    if metas.descends(class_at_place(places, place), class) {
        return Some(Datum::Ref(place as u32));
    }
    None
}

/// The literal of this name. One whose number passes 32 bits has no room.
fn literal_of(
    dictionary: &Dictionary,
    metamodel: u32,
    enumeration: u32,
    value: &Value,
) -> Result<Option<Datum>, ListFault>
    ensures value { IfOk result (λ o. o ≡ option_map (literal_in metamodel enumeration) (option_and_then (literal_named dictionary.now metamodel enumeration) (as_str (view value.now)))) }
    ensures plain { IfOk result (λ o. IfSome o IsPlainDatum) }
{
    let Some(name) = value.as_str() else {
        return Ok(None);
    };
    let Some(literal) = dictionary.literal(metamodel, enumeration, name) else {
        return Ok(None);
    };
    Ok(Some(Datum::Literal(LiteralRef {
        metamodel,
        enumeration,
        literal,
    })))
}

/// The item of a type that the value is.
#[tactic(auto, unfolding(crate::specs::Reading::datum_of))]
fn datum_of(
    alloc: Global,
    dictionary: &Dictionary,
    places: &Places,
    kind: TypeKind,
    value: &Value,
) -> Result<Option<Datum>, ListFault>
    requires few { length places.now.ids < 2 ^ 32 }
    ensures value { IfOk result (λ o. o ≡ datum_of dictionary.now places.now kind (view value.now)) }
    ensures plain { IfOk result (λ o. IfSome o IsPlainDatum) }
{
    match kind {
        TypeKind::Bool => match value.as_bool() {
            Some(flag) => Ok(Some(Datum::Bool(flag))),
            None => Ok(None),
        },
        TypeKind::Int => match value.as_i64() {
            Some(number) => Ok(Some(Datum::Int(number))),
            None => Ok(None),
        },
        TypeKind::Str => match value.as_str() {
            Some(text) => Ok(Some(Datum::Str(Text::from_str(alloc, text)?))),
            None => Ok(None),
        },
        TypeKind::Enum(metamodel, enumeration) => literal_of(
            dictionary,
            metamodel,
            enumeration,
            value,
        ),
        TypeKind::Class(class) => match value.as_str() {
            Some(id) => Ok(ref_of(dictionary.metas(), places, class, id)),
            None => Ok(None),
        },
    }
}

/// The items of a type that the values are.
fn all_items(
    alloc: Global,
    dictionary: &Dictionary,
    places: &Places,
    kind: TypeKind,
    values: &Vec<Value>,
) -> Result<Option<DatumList>, ListFault>
    requires few { length places.now.ids < 2 ^ 32 }
    ensures value { IfOk result (λ o. o ≡ all_items (datum_of dictionary.now places.now kind) (items_view values.now.items)) }
    ensures plain { IfOk result (λ o. IfSome o (AllByRecursion IsPlainDatum)) }
{
    let mut items = DatumList::new(alloc);
    for value in values {
        let Some(item) = datum_of(alloc, dictionary, places, kind, value)? else {
            return Ok(None);
        };
        items.push(item)?;
    }
    Ok(Some(items))
}

/// The item of a slot of upper bound 1, in a list.
fn one_item(
    alloc: Global,
    dictionary: &Dictionary,
    places: &Places,
    kind: TypeKind,
    value: &Value,
) -> Result<Option<DatumList>, ListFault>
    requires few { length places.now.ids < 2 ^ 32 }
    ensures value { IfOk result (λ o. o ≡ one_item (datum_of dictionary.now places.now kind) (view value.now)) }
    ensures plain { IfOk result (λ o. IfSome o (AllByRecursion IsPlainDatum)) }
{
    let mut items = DatumList::new(alloc);
    if value.is_null() {
        return Ok(Some(items));
    }
    let Some(item) = datum_of(alloc, dictionary, places, kind, value)? else {
        return Ok(None);
    };
    items.push(item)?;
    Ok(Some(items))
}

/// The items of a slot, None where the value is not of the feature's type.
#[tactic(auto, unfolding(crate::specs::Reading::items_read))]
pub fn items_read(
    alloc: Global,
    dictionary: &Dictionary,
    places: &Places,
    feature: FeatureNo,
    value: &Value,
) -> Result<Option<DatumList>, ListFault>
    requires few { length places.now.ids < 2 ^ 32 }
    ensures value { IfOk result (λ o. o ≡ items_read dictionary.now places.now feature (view value.now)) }
    ensures plain { IfOk result (λ o. IfSome o (AllByRecursion IsPlainDatum)) }
{
    let shape = dictionary.metas().shape(feature);
    if shape.upper == Some(1) {
        return one_item(alloc, dictionary, places, shape.kind, value);
    }
    match value.as_array() {
        Some(values) => all_items(alloc, dictionary, places, shape.kind, values),
        None => Ok(None),
    }
}
