//! Items of lists.

ghost use Rattle.std.specs.Prelude.{◌≡◌, ◌++◌, ◌∷◌, [], pos, if◌then◌else◌, IfOk, reverse};
ghost use Rattle.std.specs.List.{list_any, list_all, position};
ghost use Rattle.qvt_ocl_words.specs.Integers.{whole};
ghost use Rattle.qvt_ocl_words.specs.Lists.{same, has, count, index_of, excluding, is_null, is_integer, is_string, are_ordered, first_of, last_of};

use qvt_base::copied::Copied;
use qvt_base::list_fault::ListFault;
use qvt_base::numbers::Place;
use qvt_base::seq::Seq;
use qvt_ocl_words::numbers::following;
use qvt_value::value::{Reason, Value, Values};
use std::alloc::Global;

/// Whether the values are equal. It stops at the first difference, and texts of other lengths are told by these.
#[tactic(auto, using(qvt_value::proofs::OrderOfValues::alike))]
pub fn same(a: &Value, b: &Value) -> bool
    ensures { result ≡ same a.now b.now }
{
    a == b
}

/// Whether the value stands in the list.
pub fn has(items: &[Value], item: &Value) -> bool
    ensures { result ≡ has items.now item.now }
{
    items.iter().any(|other| same(item, other))
}

/// How often it does.
pub fn count(item: &Value, items: &[Value]) -> usize
    ensures { result ≡ count item.now items.now }
{
    items.iter().filter(|other| same(item, other)).count()
}

/// Where it first stands.
fn place_of(item: &Value, items: &[Value]) -> Option<usize>
    ensures { result ≡ position (same item.now) items.now }
{
    items.iter().position(|other| same(item, other))
}

/// Where it first stands, from 1, or 0.
pub fn index_of(place: Place, item: &Value, items: &[Value]) -> Value
    ensures { result ≡ whole place (pos (index_of item.now items.now)) }
{
    match place_of(item, items) {
        Some(i) => following(place, i),
        None => Value::Int(0),
    }
}

/// The list with a copy of the value last, or the list alone.
pub fn with_last_if(
    alloc: Global,
    list: Values,
    more: bool,
    value: &Value,
) -> Result<Values, ListFault>
    ensures { IfOk result (λ all. all ≡ (if more then list ++ value.now ∷ [] else list)) }
{
    if !more {
        return Ok(list);
    }
    let mut all = list;
    all.push(value.copy(alloc)?)?;
    Ok(all)
}

/// Puts copies of the values last.
pub fn extend(alloc: Global, items: Values, values: &[Value]) -> Result<Values, ListFault>
    ensures { IfOk result (λ all. all ≡ items ++ values.now) }
{
    let mut all = items;
    for value in values {
        all.push(value.copy(alloc)?)?;
    }
    Ok(all)
}

/// The items and then the others, which are handed over. No item is copied.
pub fn followed(items: Values, others: Values) -> Result<Values, ListFault>
    ensures { IfOk result (λ all. all ≡ items ++ others) }
{
    let mut all = items.into_vec();
    let mut more = others.into_vec();
    match all.append(&mut more) {
        Ok(()) => Ok(Seq::from_vec(all)),
        Err(_) => Err(ListFault::NoMemory),
    }
}

/// Copies of what is not this value.
pub fn excluding(alloc: Global, item: &Value, items: &[Value]) -> Result<Values, ListFault>
    ensures { IfOk result (λ kept. kept ≡ excluding item.now items.now) }
{
    let mut kept = Seq::new(alloc);
    for other in items {
        if !same(item, other) {
            kept.push(other.copy(alloc)?)?;
        }
    }
    Ok(kept)
}

/// The items the other way round.
pub fn reversed(items: Values) -> Values
    ensures { result ≡ reverse items }
{
    let mut all = items.into_vec();
    all.reverse();
    Seq::from_vec(all)
}

/// Whether the value is null.
pub fn is_null(value: &Value) -> bool
    ensures { result ≡ is_null value.now }
{
    matches!(value, Value::Null)
}

fn is_integer(value: &Value) -> bool
    ensures { result ≡ is_integer value.now }
{
    matches!(value, Value::Int(_))
}

fn is_string(value: &Value) -> bool
    ensures { result ≡ is_string value.now }
{
    matches!(value, Value::Str(_))
}

/// Whether one of the values is null.
pub fn has_null(values: &[Value]) -> bool
    ensures { result ≡ list_any is_null values.now }
{
    values.iter().any(is_null)
}

/// Whether all are Integers.
pub fn are_integers(values: &[Value]) -> bool
    ensures { result ≡ list_all is_integer values.now }
{
    values.iter().all(is_integer)
}

fn are_strings(values: &[Value]) -> bool
    ensures { result ≡ list_all is_string values.now }
{
    values.iter().all(is_string)
}

/// Whether all are Integers, or all Strings.
pub fn are_ordered(values: &[Value]) -> bool
    ensures { result ≡ are_ordered values.now }
{
    are_integers(values) || are_strings(values)
}

/// A copy of the first item, or EmptySource.
pub fn first_of(alloc: Global, place: Place, values: &[Value]) -> Result<Value, ListFault>
    ensures { IfOk result (λ answer. answer ≡ first_of place values.now) }
{
    match values.first() {
        Some(value) => value.copy(alloc),
        None => Ok(Value::Invalid(Reason::EmptySource, place)),
    }
}

/// A copy of the last item, or EmptySource.
#[tactic(auto, using(crate::proofs::ItemLists::last_is))]
pub fn last_of(alloc: Global, place: Place, values: &[Value]) -> Result<Value, ListFault>
    ensures { IfOk result (λ answer. answer ≡ last_of place values.now) }
{
    match values.split_last() {
        Some((value, _)) => {
            let last = value.copy(alloc)?;
            Ok(last)
        }
        None => Ok(Value::Invalid(Reason::EmptySource, place)),
    }
}
