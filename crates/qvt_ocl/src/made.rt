//! Collections made of lists, for every kind.

ghost use Rattle.std.specs.Prelude.{◌≡◌, ◌++◌, ◌∷◌, [], IfOk};
ghost use Rattle.qvt_value.specs.declared.value.Kind.TheVariants.{OrderedSet};
ghost use Rattle.qvt_ocl_words.specs.Lists.{excluding, lacking, flattened};
ghost use Rattle.qvt_ocl_words.specs.Collections.{kept, where', is_once, same_kind, common_kind, intersected};

use crate::kinds::{common_kind, is_once, same_kind};
use qvt_base::copied::Copied;
use qvt_base::list_fault::ListFault;
use qvt_ocl_lists::counts::common;
use qvt_ocl_lists::flat::flattened;
use qvt_ocl_lists::items;
use qvt_ocl_lists::lookup::lacking;
use qvt_ocl_lists::once::joining;
use qvt_value::copy::copies;
use qvt_value::make::make;
use qvt_value::value::{Kind, Value, Values};
use std::alloc::Global;

/// The collection of the kind that is made of the items. Only an OrderedSet takes memory.
#[tactic(auto, unfolding(qvt_ocl_words::specs::Collections::kept))]
pub fn kept(alloc: Global, kind: Kind, items: Values) -> Result<Value, ListFault>
    ensures { IfOk result (λ answer. answer ≡ kept kind items) }
{
    match make(alloc, kind, items) {
        Ok(collection) => Ok(collection),
        Err(_) => Err(ListFault::NoMemory),
    }
}

/// A collection of the kind, of copies of the items.
pub fn copy_of(alloc: Global, kind: Kind, items: &[Value]) -> Result<Value, ListFault>
    ensures { IfOk result (λ answer. answer ≡ kept kind items.now) }
{
    kept(alloc, kind, copies(alloc, items)?)
}

/// The collection made flat, down to the innermost items.
pub fn flat(alloc: Global, kind: Kind, items: &[Value]) -> Result<Value, ListFault>
    ensures { IfOk result (λ answer. answer ≡ kept kind (flattened items.now)) }
{
    kept(alloc, kind, flattened(alloc, items)?)
}

/// The items and one more, put last, made a collection of the kind.
pub fn with_last(alloc: Global, kind: Kind, items: Values, item: &Value) -> Result<Value, ListFault>
    ensures { IfOk result (λ answer. answer ≡ kept kind (items ++ item.now ∷ [])) }
{
    let mut all = items;
    all.push(item.copy(alloc)?)?;
    kept(alloc, kind, all)
}

/// The collection with one more item, put last.
pub fn including(
    alloc: Global,
    kind: Kind,
    items: &[Value],
    item: &Value,
) -> Result<Value, ListFault>
    ensures { IfOk result (λ answer. answer ≡ kept kind (items.now ++ item.now ∷ [])) }
{
    with_last(alloc, kind, copies(alloc, items)?, item)
}

/// The collection without all that equal the item.
pub fn excluding(
    alloc: Global,
    kind: Kind,
    items: &[Value],
    item: &Value,
) -> Result<Value, ListFault>
    ensures { IfOk result (λ answer. answer ≡ kept kind (excluding item.now items.now)) }
{
    kept(alloc, kind, items::excluding(alloc, item, items)?)
}

/// The OrderedSet of the items and then the others. Where no item equals an earlier one, each is looked up once.
#[tactic(auto, unfolding(qvt_ocl_words::specs::Collections::kept))]
fn joined(alloc: Global, items: Values, others: &[Value]) -> Result<Value, ListFault>
    ensures { IfOk result (λ answer. answer ≡ kept OrderedSet (items ++ others.now)) }
{
    match joining(alloc, items.as_slice(), others)? {
        Some(fresh) => Ok(Value::Coll(Kind::OrderedSet, items::followed(items, fresh)?)),
        None => kept(
            alloc,
            Kind::OrderedSet,
            items::extend(alloc, items, others)?,
        ),
    }
}

fn with_all(alloc: Global, kind: Kind, items: Values, others: &[Value]) -> Result<Value, ListFault>
    ensures { IfOk result (λ answer. answer ≡ kept kind (items ++ others.now)) }
{
    match kind {
        Kind::OrderedSet => joined(alloc, items, others),
        _ => kept(alloc, kind, items::extend(alloc, items, others)?),
    }
}

/// The items of both, of one kind.
pub fn union(
    alloc: Global,
    kind: Kind,
    items: &[Value],
    other: Kind,
    others: &[Value],
) -> Result<Option<Value>, ListFault>
    ensures { IfOk result (λ answer. answer ≡ where' (same_kind kind other) (kept kind (items.now ++ others.now))) }
{
    if !same_kind(kind, other) {
        return Ok(None);
    }
    Ok(Some(with_all(alloc, kind, copies(alloc, items)?, others)?))
}

/// The items of both, of one kind, the first of which are handed over.
pub fn union_onto(
    alloc: Global,
    kind: Kind,
    items: Values,
    other: Kind,
    others: &[Value],
) -> Result<Option<Value>, ListFault>
    ensures { IfOk result (λ answer. answer ≡ where' (same_kind kind other) (kept kind (items ++ others.now))) }
{
    if !same_kind(kind, other) {
        return Ok(None);
    }
    Ok(Some(with_all(alloc, kind, items, others)?))
}

/// Each item as often as it stands in both, of Sets and Bags.
pub fn intersection(
    alloc: Global,
    kind: Kind,
    items: &[Value],
    other: Kind,
    others: &[Value],
) -> Result<Option<Value>, ListFault>
    ensures { IfOk result (λ answer. answer ≡ intersected (common_kind kind other) items.now others.now) }
{
    match common_kind(kind, other) {
        None => Ok(None),
        Some(both) => Ok(Some(kept(alloc, both, common(alloc, items, others)?)?)),
    }
}

/// The items that are not among the others, of a Set or an OrderedSet.
pub fn minus(
    alloc: Global,
    kind: Kind,
    items: &[Value],
    others: &[Value],
) -> Result<Option<Value>, ListFault>
    ensures { IfOk result (λ answer. answer ≡ where' (is_once kind) (kept kind (lacking others.now items.now))) }
{
    if !is_once(kind) {
        return Ok(None);
    }
    Ok(Some(kept(alloc, kind, lacking(alloc, others, items)?)?))
}
