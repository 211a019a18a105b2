//! Lists of values, and the objects in them.

ghost use Rattle.std.specs.Prelude.{◌≡◌, All, IfOk, if◌then◌else◌};
ghost use Rattle.std.specs.List.{list_any};
ghost use Rattle.qvt_slots.specs.Slots.{has, is_object};
ghost use Rattle.qvt_slots.specs.Change.{among_objects};
ghost use Rattle.qvt_slots.specs.Types.{HasCodeType};
ghost use Rattle.qvt_slots.specs.Repeats.{repeats};
ghost use Rattle.qvt_value.specs.Kept.{is_same, firsts};
ghost use Rattle.qvt_value.specs.Order.{order_of};

use crate::seen::Seen;
use qvt_base::copied::Copied;
use qvt_base::list_fault::ListFault;
use qvt_base::numbers::Oid;
use qvt_base::seq::Seq;
use qvt_value::value::{Value, Values};
use std::alloc::Global;

/// Whether the list holds the object.
pub fn holds(values: &[Value], object: Oid) -> bool
    ensures { result ≡ has values.now object.0 }
{
    values.iter().any(|value| is_object_of(object, value))
}

/// Whether the object is one of these.
pub fn is_among(objects: &[Oid], object: Oid) -> bool
    ensures { result ≡ among_objects objects.now object.0 }
{
    objects.iter().any(|other| other.0 == object.0)
}

pub fn is_object_of(object: Oid, value: &Value) -> bool
    ensures { result ≡ is_object object.0 value.now }
{
    match value {
        Value::Obj(other) => other.0 == object.0,
        _ => false,
    }
}

/// Whether the values are equal.
#[tactic(auto, using(qvt_value::proofs::OrderOfValues::alike))]
fn is_same(a: &Value, b: &Value) -> bool
    ensures { result ≡ is_same order_of a.now b.now }
{
    a == b
}

/// Whether a value of the list equals this one.
pub fn holds_value(values: &[Value], value: &Value) -> bool
    ensures { result ≡ list_any (λ other. is_same order_of other value.now) values.now }
{
    values.iter().any(|other| is_same(other, value))
}

fn stands_in(value: &Value, values: &[Value]) -> bool
    ensures { result ≡ list_any (is_same order_of value.now) values.now }
{
    values.iter().any(|other| is_same(value, other))
}

/// How many values are looked at pair by pair. More are noted by hash.
const FEW: usize = 8;

fn few_repeat(values: &[Value]) -> bool
    ensures { result ≡ repeats values.now }
{
    for (i, value) in values.iter().enumerate() {
        let (_, rest) = values.split_at(i + 1);
        if stands_in(value, rest) {
            return true;
        }
    }
    false
}

fn many_repeat(alloc: Global, values: &[Value]) -> Result<bool, ListFault>
    ensures { IfOk result (λ twice. twice ≡ repeats values.now) }
{
    let mut seen = Seen::new(alloc);
    for value in values {
        if seen.note(value)? {
            return Ok(true);
        }
    }
    Ok(false)
}

/// Whether a value stands twice in the list.
pub fn repeats(alloc: Global, values: &[Value]) -> Result<bool, ListFault>
    ensures { IfOk result (λ twice. twice ≡ repeats values.now) }
{
    if values.len() <= FEW {
        return Ok(few_repeat(values));
    }
    many_repeat(alloc, values)
}

/// A law: an Integer fits 64 bits, and a String is UTF-8.
pub fn is_plain(value: &Value)
    ensures { HasCodeType value.now }
{
    match value {
        Value::Int(number) => {
            let _number = *number;
        }
        Value::Str(text) => {
            let _text = text.as_str();
        }
        _ => {}
    }
}

/// A copy of the value.
fn plain_copy(alloc: Global, value: &Value) -> Result<Value, ListFault>
    ensures same { IfOk result (λ copy. copy ≡ value.now) }
    ensures plain { IfOk result HasCodeType }
{
    is_plain(value);
    let copy = value.copy(alloc)?;
    Ok(copy)
}

/// Copies of the values, in order.
pub fn copied(alloc: Global, values: &[Value]) -> Result<Values, ListFault>
    ensures same { IfOk result (λ copies. copies ≡ values.now) }
    ensures plain { IfOk result (All HasCodeType) }
{
    let mut copies = Seq::new(alloc);
    for value in values {
        copies.push(plain_copy(alloc, value)?)?;
    }
    Ok(copies)
}

fn few_without_repeats(alloc: Global, values: &[Value]) -> Result<Values, ListFault>
    ensures list { IfOk result (λ list. list ≡ firsts order_of values.now) }
    ensures plain { IfOk result (All HasCodeType) }
{
    let mut list = Seq::new(alloc);
    for value in values {
        if !holds_value(list.as_slice(), value) {
            list.push(plain_copy(alloc, value)?)?;
        }
    }
    Ok(list)
}

fn many_without_repeats(alloc: Global, values: &[Value]) -> Result<Values, ListFault>
    ensures list { IfOk result (λ list. list ≡ firsts order_of values.now) }
    ensures plain { IfOk result (All HasCodeType) }
{
    let mut seen = Seen::new(alloc);
    let mut list = Seq::new(alloc);
    for value in values {
        if !seen.note(value)? {
            list.push(plain_copy(alloc, value)?)?;
        }
    }
    Ok(list)
}

/// Copies of the values, with the first of equal values kept.
pub fn without_repeats(alloc: Global, values: &[Value]) -> Result<Values, ListFault>
    ensures list { IfOk result (λ list. list ≡ firsts order_of values.now) }
    ensures plain { IfOk result (All HasCodeType) }
{
    if values.len() <= FEW {
        return few_without_repeats(alloc, values);
    }
    many_without_repeats(alloc, values)
}

/// The new list of a slot: in a unique one the first of equal values is kept.
pub fn new_list(alloc: Global, unique: bool, values: &[Value]) -> Result<Values, ListFault>
    ensures list { IfOk result (λ list. list ≡ (if unique then firsts order_of values.now else values.now)) }
    ensures plain { IfOk result (All HasCodeType) }
{
    if unique {
        without_repeats(alloc, values)
    } else {
        copied(alloc, values)
    }
}
