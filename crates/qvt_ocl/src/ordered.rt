//! Operations on collections that have an order of their own: Sequences and OrderedSets.

ghost use Rattle.std.specs.Prelude.{◌≡◌, ◌++◌, ◌∷◌, [], pos, reverse, IfOk};
ghost use Rattle.qvt_ocl_words.specs.Integers.{whole};
ghost use Rattle.qvt_ocl_words.specs.Lists.{index_of, first_of, last_of};
ghost use Rattle.qvt_ocl_words.specs.Collections.{kept, where', is_in_order, item_at, part, inserted};

use crate::kinds::is_in_order;
use crate::made::{including, kept, with_last};
use qvt_base::copied::Copied;
use qvt_base::list_fault::ListFault;
use qvt_base::numbers::Place;
use qvt_base::seq::Seq;
use qvt_ocl_lists::items;
use qvt_ocl_texts::texts::{is_span, natural};
use qvt_value::copy::copies;
use qvt_value::value::{Kind, Reason, Value, Values};
use std::alloc::Global;

/// The first item, or EmptySource.
pub fn first(
    alloc: Global,
    place: Place,
    kind: Kind,
    items: &[Value],
) -> Result<Option<Value>, ListFault>
    ensures { IfOk result (λ answer. answer ≡ where' (is_in_order kind) (first_of place items.now)) }
{
    if !is_in_order(kind) {
        return Ok(None);
    }
    Ok(Some(items::first_of(alloc, place, items)?))
}

/// The last item, or EmptySource.
pub fn last(
    alloc: Global,
    place: Place,
    kind: Kind,
    items: &[Value],
) -> Result<Option<Value>, ListFault>
    ensures { IfOk result (λ answer. answer ≡ where' (is_in_order kind) (last_of place items.now)) }
{
    if !is_in_order(kind) {
        return Ok(None);
    }
    Ok(Some(items::last_of(alloc, place, items)?))
}

fn item_at(alloc: Global, place: Place, items: &[Value], i: i64) -> Result<Value, ListFault>
    ensures { IfOk result (λ answer. answer ≡ item_at place items.now i) }
{
    if !is_span(i, i, items.len()) {
        return Ok(Value::Invalid(Reason::BadIndex, place));
    }
    items[natural(i) - 1].copy(alloc)
}

/// The i-th item, or BadIndex.
pub fn at(
    alloc: Global,
    place: Place,
    kind: Kind,
    items: &[Value],
    i: i64,
) -> Result<Option<Value>, ListFault>
    ensures { IfOk result (λ answer. answer ≡ where' (is_in_order kind) (item_at place items.now i)) }
{
    if !is_in_order(kind) {
        return Ok(None);
    }
    Ok(Some(item_at(alloc, place, items, i)?))
}

/// Where the item first stands, from 1, or 0.
pub fn index_of(place: Place, kind: Kind, items: &[Value], item: &Value) -> Option<Value>
    ensures { result ≡ where' (is_in_order kind) (whole place (pos (index_of item.now items.now))) }
{
    if !is_in_order(kind) {
        return None;
    }
    Some(items::index_of(place, item, items))
}

/// The collection with one more item, put last.
pub fn append(
    alloc: Global,
    kind: Kind,
    items: &[Value],
    item: &Value,
) -> Result<Option<Value>, ListFault>
    ensures { IfOk result (λ answer. answer ≡ where' (is_in_order kind) (kept kind (items.now ++ item.now ∷ []))) }
{
    if !is_in_order(kind) {
        return Ok(None);
    }
    Ok(Some(including(alloc, kind, items, item)?))
}

/// The collection that is handed over, with one more item, put last.
pub fn append_onto(
    alloc: Global,
    kind: Kind,
    items: Values,
    item: &Value,
) -> Result<Option<Value>, ListFault>
    ensures { IfOk result (λ answer. answer ≡ where' (is_in_order kind) (kept kind (items ++ item.now ∷ []))) }
{
    if !is_in_order(kind) {
        return Ok(None);
    }
    Ok(Some(with_last(alloc, kind, items, item)?))
}

fn with_first(alloc: Global, item: &Value, items: &[Value]) -> Result<Values, ListFault>
    ensures { IfOk result (λ all. all ≡ item.now ∷ items.now) }
{
    let mut first = Seq::new(alloc);
    first.push(item.copy(alloc)?)?;
    items::extend(alloc, first, items)
}

/// The collection with one more item, put first.
pub fn prepend(
    alloc: Global,
    kind: Kind,
    items: &[Value],
    item: &Value,
) -> Result<Option<Value>, ListFault>
    ensures { IfOk result (λ answer. answer ≡ where' (is_in_order kind) (kept kind (item.now ∷ items.now))) }
{
    if !is_in_order(kind) {
        return Ok(None);
    }
    Ok(Some(kept(alloc, kind, with_first(alloc, item, items)?)?))
}

fn inserted(
    alloc: Global,
    place: Place,
    kind: Kind,
    items: &[Value],
    i: i64,
    item: &Value,
) -> Result<Value, ListFault>
    ensures { IfOk result (λ answer. answer ≡ inserted place kind items.now i item.now) }
{
    if i < 1 || items.len() < natural(i) - 1 {
        return Ok(Value::Invalid(Reason::BadIndex, place));
    }
    let (before, after) = items.split_at(natural(i) - 1);
    let mut all = copies(alloc, before)?;
    all.push(item.copy(alloc)?)?;
    let all = items::extend(alloc, all, after)?;
    kept(alloc, kind, all)
}

/// The collection with the item as its i-th, or BadIndex.
pub fn insert_at(
    alloc: Global,
    place: Place,
    kind: Kind,
    items: &[Value],
    i: i64,
    item: &Value,
) -> Result<Option<Value>, ListFault>
    ensures { IfOk result (λ answer. answer ≡ where' (is_in_order kind) (inserted place kind items.now i item.now)) }
{
    if !is_in_order(kind) {
        return Ok(None);
    }
    Ok(Some(inserted(alloc, place, kind, items, i, item)?))
}

/// The collection the other way round.
pub fn reverse(alloc: Global, kind: Kind, items: &[Value]) -> Result<Option<Value>, ListFault>
    ensures { IfOk result (λ answer. answer ≡ where' (is_in_order kind) (kept kind (reverse items.now))) }
{
    if !is_in_order(kind) {
        return Ok(None);
    }
    Ok(Some(kept(alloc, kind, items::reversed(copies(alloc, items)?))?))
}

/// The collection that is handed over, the other way round.
pub fn reverse_all(alloc: Global, kind: Kind, items: Values) -> Result<Option<Value>, ListFault>
    ensures { IfOk result (λ answer. answer ≡ where' (is_in_order kind) (kept kind (reverse items))) }
{
    if !is_in_order(kind) {
        return Ok(None);
    }
    Ok(Some(kept(alloc, kind, items::reversed(items))?))
}

/// The items from the l-th to the u-th, or BadIndex.
pub fn part(
    alloc: Global,
    place: Place,
    kind: Kind,
    items: &[Value],
    l: i64,
    u: i64,
) -> Result<Value, ListFault>
    ensures { IfOk result (λ answer. answer ≡ part place kind items.now l u) }
{
    if !is_span(l, u, items.len()) {
        return Ok(Value::Invalid(Reason::BadIndex, place));
    }
    let part = copies(alloc, &items[natural(l) - 1..natural(u)])?;
    kept(alloc, kind, part)
}
