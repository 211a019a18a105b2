//! The operations on collections (OCL 2.4, 11.7), by the sorts of their arguments.

ghost use Rattle.std.specs.Prelude.{◌≡◌, IfOk};
ghost use Rattle.qvt_ocl_words.specs.Collections.{of_collection, of_collection_item, of_collection_at, of_collections, of_collection_span, of_collection_place};

use crate::{made, ordered};
use qvt_base::list_fault::ListFault;
use qvt_base::numbers::Place;
use qvt_ocl_lists::best::{greatest_of, least_of};
use qvt_ocl_lists::items::{count, has};
use qvt_ocl_lists::lookup::{excludes_all, includes_all};
use qvt_ocl_lists::total::sum_of;
use qvt_ocl_words::numbers::number;
use qvt_ocl_words::op::Op;
use qvt_value::value::{Kind, Value};
use std::alloc::Global;

/// A collection without arguments.
#[tactic(auto, unfolding(qvt_ocl_words::specs::Collections::of_collection))]
pub fn of_collection(
    alloc: Global,
    op: Op,
    place: Place,
    kind: Kind,
    items: &[Value],
) -> Result<Option<Value>, ListFault>
    ensures { IfOk result (λ answer. answer ≡ of_collection op place kind items.now) }
{
    match op {
        Op::Size => Ok(Some(number(place, items.len()))),
        Op::IsEmpty => Ok(Some(Value::Bool(items.is_empty()))),
        Op::NotEmpty => Ok(Some(Value::Bool(!items.is_empty()))),
        Op::Flatten => Ok(Some(made::flat(alloc, kind, items)?)),
        Op::AsSet => Ok(Some(made::copy_of(alloc, Kind::Set, items)?)),
        Op::AsBag => Ok(Some(made::copy_of(alloc, Kind::Bag, items)?)),
        Op::AsSequence => Ok(Some(made::copy_of(alloc, Kind::Sequence, items)?)),
        Op::AsOrderedSet => Ok(Some(made::copy_of(alloc, Kind::OrderedSet, items)?)),
        Op::Sum => Ok(sum_of(place, items)),
        Op::Min => least_of(alloc, place, items),
        Op::Max => greatest_of(alloc, place, items),
        Op::First => ordered::first(alloc, place, kind, items),
        Op::Last => ordered::last(alloc, place, kind, items),
        Op::Reverse => ordered::reverse(alloc, kind, items),
        _ => Ok(None),
    }
}

/// A collection with any value.
#[tactic(auto, unfolding(qvt_ocl_words::specs::Collections::of_collection_item))]
pub fn of_collection_item(
    alloc: Global,
    op: Op,
    place: Place,
    kind: Kind,
    items: &[Value],
    item: &Value,
) -> Result<Option<Value>, ListFault>
    ensures { IfOk result (λ answer. answer ≡ of_collection_item op place kind items.now item.now) }
{
    match op {
        Op::Includes => Ok(Some(Value::Bool(has(items, item)))),
        Op::Excludes => Ok(Some(Value::Bool(!has(items, item)))),
        Op::Count => Ok(Some(number(place, count(item, items)))),
        Op::Including => Ok(Some(made::including(alloc, kind, items, item)?)),
        Op::Excluding => Ok(Some(made::excluding(alloc, kind, items, item)?)),
        Op::IndexOf => Ok(ordered::index_of(place, kind, items, item)),
        Op::Append => ordered::append(alloc, kind, items, item),
        Op::Prepend => ordered::prepend(alloc, kind, items, item),
        _ => Ok(None),
    }
}

/// A collection with an Integer.
#[tactic(auto, unfolding(qvt_ocl_words::specs::Collections::of_collection_at))]
pub fn of_collection_at(
    alloc: Global,
    op: Op,
    place: Place,
    kind: Kind,
    items: &[Value],
    i: i64,
) -> Result<Option<Value>, ListFault>
    ensures { IfOk result (λ answer. answer ≡ of_collection_at op place kind items.now i) }
{
    match op {
        Op::At => ordered::at(alloc, place, kind, items, i),
        _ => Ok(None),
    }
}

/// A collection with a collection.
#[tactic(auto, unfolding(qvt_ocl_words::specs::Collections::of_collections))]
pub fn of_collections(
    alloc: Global,
    op: Op,
    kind: Kind,
    items: &[Value],
    other: Kind,
    others: &[Value],
) -> Result<Option<Value>, ListFault>
    ensures { IfOk result (λ answer. answer ≡ of_collections op kind items.now other others.now) }
{
    match op {
        Op::IncludesAll => Ok(Some(Value::Bool(includes_all(alloc, items, others)?))),
        Op::ExcludesAll => Ok(Some(Value::Bool(excludes_all(alloc, items, others)?))),
        Op::Union => made::union(alloc, kind, items, other, others),
        Op::Intersection => made::intersection(alloc, kind, items, other, others),
        Op::Minus => made::minus(alloc, kind, items, others),
        _ => Ok(None),
    }
}

/// A collection with two Integers.
#[tactic(auto, unfolding(qvt_ocl_words::specs::Collections::of_collection_span))]
pub fn of_collection_span(
    alloc: Global,
    op: Op,
    place: Place,
    kind: Kind,
    items: &[Value],
    l: i64,
    u: i64,
) -> Result<Option<Value>, ListFault>
    ensures { IfOk result (λ answer. answer ≡ of_collection_span op place kind items.now l u) }
{
    match op {
        Op::SubSequence => match kind {
            Kind::Sequence => Ok(Some(ordered::part(alloc, place, Kind::Sequence, items, l, u)?)),
            _ => Ok(None),
        },
        Op::SubOrderedSet => match kind {
            Kind::OrderedSet => Ok(Some(ordered::part(
                alloc,
                place,
                Kind::OrderedSet,
                items,
                l,
                u,
            )?)),
            _ => Ok(None),
        },
        _ => Ok(None),
    }
}

/// A collection with an Integer and any value.
#[tactic(auto, unfolding(qvt_ocl_words::specs::Collections::of_collection_place))]
pub fn of_collection_place(
    alloc: Global,
    op: Op,
    place: Place,
    kind: Kind,
    items: &[Value],
    i: i64,
    item: &Value,
) -> Result<Option<Value>, ListFault>
    ensures { IfOk result (λ answer. answer ≡ of_collection_place op place kind items.now i item.now) }
{
    match op {
        Op::InsertAt => ordered::insert_at(alloc, place, kind, items, i, item),
        _ => Ok(None),
    }
}
