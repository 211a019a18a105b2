//! The values that operations are timed on.

use qvt_base::seq::Seq;
use qvt_base::text::Text;
use qvt_value::value::{Kind, Value, Values};
use std::alloc::Global;

/// The kind of the name.
pub fn kind_of(name: &str) -> Option<Kind> {
    match name {
        "set" => Some(Kind::Set),
        "bag" => Some(Kind::Bag),
        "sequence" => Some(Kind::Sequence),
        "ordered" => Some(Kind::OrderedSet),
        _ => None,
    }
}

fn item(alloc: Global, data: &str, number: u32) -> Option<Value> {
    if data == "numbers" {
        return Some(Value::Int(i64::from(number)));
    }
    let text = format!(in alloc; "item {number}").ok()?;
    Some(Value::Str(Text::from_string(text)))
}

fn scattered(number: u32) -> u32 {
    number.wrapping_mul(2_654_435_761) ^ 0x5bd1_e995
}

/// So many items, those from a number on: numbers or texts, scattered, or rising numbers.
pub fn items(alloc: Global, data: &str, from: u32, n: u32) -> Option<Values> {
    let mut items = Seq::new(alloc);
    for place in 0..n {
        let number = from.wrapping_add(place);
        let value = match data {
            "rising" => Value::Int(i64::from(number)),
            _ => item(alloc, data, scattered(number))?,
        };
        items.push(value).ok()?;
    }
    Some(items)
}

/// An item that comes after all others.
pub fn longest(alloc: Global, data: &str) -> Option<Value> {
    if data == "texts" {
        return Some(Value::Str(Text::from_str(alloc, "z").ok()?));
    }
    Some(Value::Int(i64::MAX))
}

/// One value alone.
pub fn one(alloc: Global, value: Value) -> Option<Values> {
    let mut values = Seq::new(alloc);
    values.push(value).ok()?;
    Some(values)
}

/// A text of so many characters: letters of two bytes each, or the digit 0.
pub fn long_text(alloc: Global, data: &str, n: u32) -> Option<Text> {
    let c = if data == "digits" { '0' } else { '\u{e9}' };
    let mut text = Text::new(alloc);
    for _character in 0..n {
        text.push(c).ok()?;
    }
    Some(text)
}
