//! Values read from JSON.

use qvt_base::numbers::{Oid, Place};
use qvt_base::seq::Seq;
use qvt_base::text::Text;
use qvt_value::value::{Kind, LiteralRef, Reason, Value, Values};
use serde_json::Value as Json;
use std::alloc::Global;

/// How deep collections may stand in each other.
pub const DEEPEST: u32 = 5;

/// The place that a number stands for. The call's own is that of 1.
pub fn place(number: u32) -> Place {
    Place {
        line: number,
        column: number,
        offset: number,
    }
}

fn number_at(json: &Json, key: &str) -> Option<u32> {
    u32::try_from(json.get(key)?.as_u64()?).ok()
}

fn text_at<'a>(json: &'a Json, key: &str) -> Option<&'a str> {
    json.get(key)?.as_str()
}

fn reason_of(name: &str) -> Option<Reason> {
    match name {
        "Overflow" => Some(Reason::Overflow),
        "ZeroDivide" => Some(Reason::ZeroDivide),
        "BadIndex" => Some(Reason::BadIndex),
        "CastFailed" => Some(Reason::CastFailed),
        "NullSource" => Some(Reason::NullSource),
        "NullValue" => Some(Reason::NullValue),
        "EmptySource" => Some(Reason::EmptySource),
        "BadNumber" => Some(Reason::BadNumber),
        "TooLarge" => Some(Reason::TooLarge),
        _ => None,
    }
}

fn invalid(json: &Json) -> Option<Value> {
    let reason = reason_of(text_at(json, "invalid")?)?;
    let at = number_at(json, "at").unwrap_or(1);
    Some(Value::Invalid(reason, place(at)))
}

fn object(json: &Json) -> Option<Value> {
    Some(Value::Obj(Oid(number_at(json, "object")?)))
}

fn literal(json: &Json) -> Option<Value> {
    Some(Value::Enum(LiteralRef {
        metamodel: 0,
        enumeration: 0,
        literal: number_at(json, "literal")?,
    }))
}

fn repeated(alloc: Global, json: &Json) -> Option<Value> {
    let part = text_at(json, "text")?;
    let times = number_at(json, "times")?;
    let mut text = Text::new(alloc);
    for _time in 0..times {
        text.push_str(part).ok()?;
    }
    Some(Value::Str(text))
}

fn kind_of(name: &str) -> Option<Kind> {
    match name {
        "set" => Some(Kind::Set),
        "bag" => Some(Kind::Bag),
        "sequence" => Some(Kind::Sequence),
        "ordered" => Some(Kind::OrderedSet),
        _ => None,
    }
}

fn numbers(alloc: Global, json: &Json) -> Option<Value> {
    let most = number_at(json, "numbers")?;
    let kind = kind_of(text_at(json, "as").unwrap_or("sequence"))?;
    let mut items = Seq::new(alloc);
    for number in 1..=i64::from(most) {
        items.push(Value::Int(number)).ok()?;
    }
    Some(Value::Coll(kind, items))
}

fn repeated_item(alloc: Global, json: &Json) -> Option<Value> {
    let item = text_at(json, "item")?;
    let times = number_at(json, "times")?;
    let kind = kind_of(text_at(json, "as").unwrap_or("sequence"))?;
    let mut items = Seq::new(alloc);
    for _time in 0..times {
        items
            .push(Value::Str(Text::from_str(alloc, item).ok()?))
            .ok()?;
    }
    Some(Value::Coll(kind, items))
}

fn single(alloc: Global, json: &Json) -> Option<Value> {
    if json.is_null() {
        return Some(Value::Null);
    }
    if let Some(truth) = json.as_bool() {
        return Some(Value::Bool(truth));
    }
    if let Some(number) = json.as_i64() {
        return Some(Value::Int(number));
    }
    let text = Text::from_str(alloc, json.as_str()?).ok()?;
    Some(Value::Str(text))
}

fn kind_in(json: &Json) -> Option<(Kind, &Json)> {
    if let Some(items) = json.get("set") {
        return Some((Kind::Set, items));
    }
    if let Some(items) = json.get("bag") {
        return Some((Kind::Bag, items));
    }
    if let Some(items) = json.get("sequence") {
        return Some((Kind::Sequence, items));
    }
    Some((Kind::OrderedSet, json.get("ordered")?))
}

fn plain(alloc: Global, json: &Json) -> Option<Value> {
    single(alloc, json)
        .or_else(|| invalid(json))
        .or_else(|| object(json))
        .or_else(|| literal(json))
        .or_else(|| repeated(alloc, json))
        .or_else(|| numbers(alloc, json))
        .or_else(|| repeated_item(alloc, json))
}

/// The value that the JSON stands for.
#[cycle(values)]
pub fn value_of(alloc: Global, json: &Json, deepest: u32) -> Option<Value> {
    if let Some(value) = plain(alloc, json) {
        return Some(value);
    }
    if deepest == 0 {
        return None;
    }
    let (kind, items) = kind_in(json)?;
    let items = values_of(alloc, items, deepest - 1)?;
    Some(Value::Coll(kind, items))
}

/// The values of a list.
#[cycle(values)]
pub fn values_of(alloc: Global, json: &Json, deepest: u32) -> Option<Values> {
    let mut values = Seq::new(alloc);
    for item in json.as_array()? {
        values.push(value_of(alloc, item, deepest)?).ok()?;
    }
    Some(values)
}
