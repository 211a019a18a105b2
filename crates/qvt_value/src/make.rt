//! Collections made of lists (OCL 2.4, 11.6).

ghost use Rattle.std.specs.Prelude.{◌≡◌, ◌≢◌, IfOk, IsOk, IsTrue, List, []};
ghost use Rattle.indexmap.specs.IndexSet.{insert_all};
ghost use Rattle.std.specs.List.Sorted.{IsPermutation, IsSorted};
ghost use Rattle.qvt_value.specs.contracts.value.ValueOrd.TheImpl.{ghosts as order};
ghost use Rattle.qvt_value.specs.contracts.value.ValuePartialEq.TheImpl.{ghosts};
ghost use Rattle.qvt_value.specs.declared.value.Value.{Value};
ghost use Rattle.qvt_value.specs.Kept.{sorted, firsts, is_below_next, rises};
ghost use Rattle.qvt_value.specs.Limits.{built};
ghost use Rattle.qvt_value.specs.Make.{IsMade, made};
ghost use Rattle.qvt_value.specs.Order.{order_of};

use crate::fault::ValueFault;
use crate::limits::limited;
use crate::order::compare;
use crate::value::{Kind, Value, Values};
use indexmap::IndexSet;
use qvt_base::numbers::Place;
use qvt_base::seq::Seq;
use std::alloc::Global;

/// Makes the items a collection of the kind, however many they are. Only an OrderedSet needs memory.
pub fn make(alloc: Global, kind: Kind, items: Values) -> Result<Value, ValueFault>
    ensures keeps { IfOk result (λ v. (ys : List Value) × (v ≡ Value.Coll kind ys) × IsMade kind items ys) }
    ensures is { IfOk result (λ v. v ≡ Value.Coll kind (made kind items)) }
    ensures memory { kind ≢ Kind.OrderedSet → IsOk result }
{
    let items = match kind {
        Kind::Set => in_order_once(items),
        Kind::Bag => in_order(items),
        Kind::Sequence => items,
        Kind::OrderedSet => each_first(alloc, items)?,
    };
    Ok(Value::Coll(kind, items))
}

/// Makes the items a collection of the kind. Where that has too many items, it is invalid.
#[tactic(auto, unfolding(crate::specs::Limits::built))]
pub fn make_within(
    alloc: Global,
    place: Place,
    kind: Kind,
    items: Values,
) -> Result<Value, ValueFault>
    ensures { IfOk result (λ v. v ≡ built place kind items) }
{
    let made = make(alloc, kind, items)?;
    Ok(limited(place, made))
}

/// The items in order. Lists that are in order already are merged, where there is memory for that.
fn merged(items: Values) -> Values
    ensures permutation { IsPermutation items result }
    ensures sorted { IsSorted order.cmp result }
{
    let mut all = items.into_vec();
    match all.sort() {
        Ok(()) => Seq::from_vec(all),
        Err(_) => {
            all.sort_unstable();
            Seq::from_vec(all)
        }
    }
}

fn in_order(items: Values) -> Values
    ensures { result ≡ sorted order_of items }
{
    let all = merged(items);
    all
}

fn in_order_once(items: Values) -> Values
    ensures { result ≡ sorted order_of (firsts order_of items) }
{
    let mut all = merged(items);
    all.dedup();
    all
}

fn is_below_next(item: &Value, rest: &[Value]) -> bool
    ensures { result ≡ is_below_next order_of item.now rest.now }
{
    match rest.first() {
        Some(next) => compare(item, next).is_lt(),
        None => true,
    }
}

/// Whether each item is below the next.
fn is_rising(items: &[Value]) -> bool
    ensures { result ≡ rises order_of items.now }
{
    let mut rest = items;
    while let Some((first, after)) = rest.split_first() {
        if !is_below_next(first, after) {
            return false;
        }
        rest = after;
    }
    true
}

/// Whether no item equals an earlier one, looked up by hash.
fn all_differ(alloc: Global, items: &[Value]) -> Result<bool, ValueFault>
    ensures { IfOk result (λ differ. IsTrue differ → items.now ≡ firsts order_of items.now) }
{
    let mut earlier = IndexSet::with_capacity(alloc, items.len())?;
    for item in items {
        if !earlier.insert(item)? {
            return Ok(false);
        }
    }
    Ok(true)
}

/// Each item where it first stands. A list without repeats is left as it is.
#[tactic(auto, using(crate::proofs::Differing::rising_kept))]
fn each_first(alloc: Global, items: Values) -> Result<Values, ValueFault>
    ensures { IfOk result (λ kept. kept ≡ firsts order_of items) }
{
    if is_rising(items.as_slice()) {
        return Ok(items);
    }
    if all_differ(alloc, items.as_slice())? {
        return Ok(items);
    }
    firsts_of(alloc, items)
}

fn firsts_of(alloc: Global, items: Values) -> Result<Values, ValueFault>
    ensures { IfOk result (λ kept. kept ≡ firsts order_of items) }
{
    let set = set_of(alloc, items)?;
    let mut kept = Seq::new(alloc);
    for item in set {
        kept.push(item)?;
    }
    Ok(kept)
}

fn set_of(alloc: Global, items: Values) -> Result<IndexSet<Value>, ValueFault>
    ensures { IfOk result (λ set. set.keys ≡ insert_all ghosts.eq [] items) }
{
    let mut set = IndexSet::new(alloc);
    for item in items.into_vec() {
        set.insert(item)?;
    }
    Ok(set)
}
