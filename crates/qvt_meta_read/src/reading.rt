//! The data of a JSON value that has the form of a metamodel.

ghost use Rattle.std.specs.Prelude.{◌≡◌, codes, IfOk, min};
ghost use Rattle.serde_json.specs.Find.{get};
ghost use Rattle.serde_json.specs.View.{view, items_view};
ghost use Rattle.qvt_json.specs.Json.{text_at, items_or};
ghost use Rattle.qvt_meta_read.specs.DataOf.{map_items, text_of, bound, flag_or, upper_of, feature_data, class_data, enum_data, meta_data};

use crate::forms::MOST_BOUND;
use qvt_base::list_fault::ListFault;
use qvt_base::lists::NameList;
use qvt_base::seq::Seq;
use qvt_base::text::Text;
use qvt_json::value::{flag_at, items_at, number_at, text_at, text_or};
use qvt_metamodel::declared::{DeclaredClass, DeclaredFeature, MetaData};
use qvt_metamodel::info::EnumInfo;
use serde_json::Value;
use std::alloc::Global;

/// A bound, of at most `MOST_BOUND`.
fn bound(number: u64) -> u32
    ensures { result ≡ bound number }
{
    number.min(MOST_BOUND) as u32
}

fn flag_or(value: &Value, key: &str, default: bool) -> bool
    ensures { result ≡ flag_or key.now default (view value.now) }
{
    match flag_at(value, key) {
        Some(flag) => flag,
        None => default,
    }
}

fn upper_of(value: &Value) -> Option<u32>
    ensures { result ≡ upper_of (get (codes "upper") (view value.now)) }
{
    let Some(upper) = value.get("upper") else {
        return Some(1);
    };
    let Some(number) = upper.as_u64() else {
        return None;
    };
    Some(bound(number))
}

/// The text at the key, if there is one.
fn text_of_key(alloc: Global, value: &Value, key: &str) -> Result<Option<Text>, ListFault>
    ensures { IfOk result (λ o. o ≡ text_at key.now (view value.now)) }
{
    match text_at(value, key) {
        Some(text) => Ok(Some(Text::from_str(alloc, text)?)),
        None => Ok(None),
    }
}

#[tactic(auto, unfolding(crate::specs::DataOf::feature_data))]
fn read_feature(alloc: Global, value: &Value) -> Result<DeclaredFeature, ListFault>
    ensures { IfOk result (λ f. f ≡ feature_data (view value.now)) }
{
    Ok(DeclaredFeature {
        name: Text::from_str(alloc, text_or(value, "name"))?,
        kind: Text::from_str(alloc, text_or(value, "type"))?,
        lower: match number_at(value, "lower") {
            Some(number) => bound(number),
            None => 0,
        },
        upper: upper_of(value),
        ordered: flag_or(value, "ordered", false),
        unique: flag_or(value, "unique", true),
        containment: flag_or(value, "containment", false),
        opposite: text_of_key(alloc, value, "opposite")?,
    })
}

/// The texts of the items of a list.
fn texts_of(alloc: Global, items: &Vec<Value>) -> Result<NameList, ListFault>
    ensures { IfOk result (λ names. names ≡ map_items text_of (items_view items.now.items)) }
{
    let mut names = Seq::new(alloc);
    for item in items {
        let text = match item.as_str() {
            Some(text) => text,
            None => "",
        };
        names.push(Text::from_str(alloc, text)?)?;
    }
    Ok(names)
}

/// The texts of the items of the list at a key; none where there is no list.
fn texts_at(alloc: Global, value: &Value, key: &str) -> Result<NameList, ListFault>
    ensures { IfOk result (λ names. names ≡ map_items text_of (items_or key.now (view value.now))) }
{
    match items_at(value, key) {
        Some(items) => Ok(texts_of(alloc, items)?),
        None => Ok(Seq::new(alloc)),
    }
}

fn read_features(alloc: Global, items: &Vec<Value>) -> Result<Seq<DeclaredFeature>, ListFault>
    ensures { IfOk result (λ fs. fs ≡ map_items feature_data (items_view items.now.items)) }
{
    let mut features = Seq::new(alloc);
    for item in items {
        features.push(read_feature(alloc, item)?)?;
    }
    Ok(features)
}

fn features_at(alloc: Global, value: &Value) -> Result<Seq<DeclaredFeature>, ListFault>
    ensures { IfOk result (λ fs. fs ≡ map_items feature_data (items_or (codes "features") (view value.now))) }
{
    match items_at(value, "features") {
        Some(items) => Ok(read_features(alloc, items)?),
        None => Ok(Seq::new(alloc)),
    }
}

#[tactic(auto, unfolding(crate::specs::DataOf::class_data))]
fn read_class(alloc: Global, value: &Value) -> Result<DeclaredClass, ListFault>
    ensures { IfOk result (λ c. c ≡ class_data (view value.now)) }
{
    Ok(DeclaredClass {
        name: Text::from_str(alloc, text_or(value, "name"))?,
        is_abstract: flag_or(value, "abstract", false),
        supers: texts_at(alloc, value, "supers")?,
        features: features_at(alloc, value)?,
    })
}

fn read_classes(alloc: Global, items: &Vec<Value>) -> Result<Seq<DeclaredClass>, ListFault>
    ensures { IfOk result (λ cs. cs ≡ map_items class_data (items_view items.now.items)) }
{
    let mut classes = Seq::new(alloc);
    for item in items {
        classes.push(read_class(alloc, item)?)?;
    }
    Ok(classes)
}

/// The classes of a metamodel's value.
fn classes_at(alloc: Global, value: &Value) -> Result<Seq<DeclaredClass>, ListFault>
    ensures { IfOk result (λ cs. cs ≡ map_items class_data (items_or (codes "classes") (view value.now))) }
{
    match items_at(value, "classes") {
        Some(items) => Ok(read_classes(alloc, items)?),
        None => Ok(Seq::new(alloc)),
    }
}

#[tactic(auto, unfolding(crate::specs::DataOf::enum_data))]
fn read_enumeration(alloc: Global, value: &Value) -> Result<EnumInfo, ListFault>
    ensures { IfOk result (λ e. e ≡ enum_data (view value.now)) }
{
    Ok(EnumInfo {
        name: Text::from_str(alloc, text_or(value, "name"))?,
        literals: texts_at(alloc, value, "literals")?,
    })
}

fn read_enumerations(alloc: Global, items: &Vec<Value>) -> Result<Seq<EnumInfo>, ListFault>
    ensures { IfOk result (λ es. es ≡ map_items enum_data (items_view items.now.items)) }
{
    let mut enums = Seq::new(alloc);
    for item in items {
        enums.push(read_enumeration(alloc, item)?)?;
    }
    Ok(enums)
}

/// The enumerations of a metamodel's value.
fn enums_at(alloc: Global, value: &Value) -> Result<Seq<EnumInfo>, ListFault>
    ensures { IfOk result (λ es. es ≡ map_items enum_data (items_or (codes "enums") (view value.now))) }
{
    match items_at(value, "enums") {
        Some(items) => Ok(read_enumerations(alloc, items)?),
        None => Ok(Seq::new(alloc)),
    }
}

/// The data of a metamodel's value.
#[tactic(auto, unfolding(crate::specs::DataOf::meta_data))]
pub fn meta_data(alloc: Global, value: &Value) -> Result<MetaData, ListFault>
    ensures { IfOk result (λ d. d ≡ meta_data (view value.now)) }
{
    Ok(MetaData {
        name: Text::from_str(alloc, text_or(value, "name"))?,
        uri: text_of_key(alloc, value, "uri")?,
        enums: enums_at(alloc, value)?,
        classes: classes_at(alloc, value)?,
    })
}
