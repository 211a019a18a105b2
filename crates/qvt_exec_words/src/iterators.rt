//! What iterators make of the values of their bodies (OCL 2.4, 7.6 and 11.9).

ghost use Rattle.std.specs.Prelude.{◌≡◌, IfOk};
ghost use Rattle.std.specs.List.{list_all};
ghost use Rattle.qvt_ocl_words.specs.Lists.{is_integer, is_string};
ghost use Rattle.qvt_run_rules.specs.declared.keyed.Keyed.{Keyed as Item};
ghost use Rattle.qvt_run_rules.specs.Iterators.{all_differ, key_order, are_keys, items_sorted, by_keys};
ghost use Rattle.qvt_value.specs.Kept.{sorted};

use crate::made::built;
use crate::sources::sorted_kind;
use qvt_base::list_fault::ListFault;
use qvt_base::numbers::Place;
use qvt_base::seq::Seq;
use qvt_ocl_lists::counts::Counts;
use qvt_run_rules::keyed::Keyed;
use qvt_value::order::compare;
use qvt_value::value::{Kind, Value, Values};
use std::alloc::Global;

/// Whether no value stands in the list twice. Values are looked up by hash.
pub fn all_differ(alloc: Global, values: &[Value]) -> Result<bool, ListFault>
    ensures { IfOk result (λ differ. differ ≡ all_differ values.now) }
{
    let counts = Counts::in_list(alloc, values)?;
    for value in values {
        if counts.of(value) != 1 {
            return Ok(false);
        }
    }
    Ok(true)
}

fn has_integer(keyed: &Keyed) -> bool
    ensures { result ≡ is_integer keyed.now.key }
{
    matches!(keyed.key, Value::Int(_))
}

fn has_string(keyed: &Keyed) -> bool
    ensures { result ≡ is_string keyed.now.key }
{
    matches!(keyed.key, Value::Str(_))
}

fn have_integers(items: &[Keyed]) -> bool
    ensures { result ≡ list_all (λ (k : Item). is_integer k.key) items.now }
{
    items.iter().all(has_integer)
}

fn have_strings(items: &[Keyed]) -> bool
    ensures { result ≡ list_all (λ (k : Item). is_string k.key) items.now }
{
    items.iter().all(has_string)
}

/// Whether all keys are Integers, or all Strings.
fn are_keys(items: &[Keyed]) -> bool
    ensures { result ≡ are_keys items.now }
{
    have_integers(items) || have_strings(items)
}

/// The items by their keys, those with equal keys in their order.
fn in_order(items: Seq<Keyed>) -> Result<Vec<Keyed>, ListFault>
    ensures { IfOk result (λ all. all.items ≡ sorted key_order items) }
{
    let mut all = items.into_vec();
    match all.sort_by(|a, b| compare(&a.key, &b.key)) {
        Ok(()) => Ok(all),
        Err(_) => Err(ListFault::NoMemory),
    }
}

/// The items without their keys, by these.
fn items_sorted(alloc: Global, items: Seq<Keyed>) -> Result<Values, ListFault>
    ensures { IfOk result (λ all. all ≡ items_sorted items) }
{
    let keyed = in_order(items)?;
    let mut all = Seq::new(alloc);
    for one in keyed {
        all.push(one.into_item())?;
    }
    Ok(all)
}

/// The items by their keys, those with equal keys in their order, made a collection of what is sorted
/// of the kind. None where keys are neither all Integers nor all Strings.
pub fn by_keys(
    alloc: Global,
    place: Place,
    kind: Kind,
    items: Seq<Keyed>,
) -> Result<Option<Value>, ListFault>
    ensures { IfOk result (λ answer. answer ≡ by_keys place kind items) }
{
    if !are_keys(items.as_slice()) {
        return Ok(None);
    }
    let all = items_sorted(alloc, items)?;
    Ok(Some(built(alloc, place, sorted_kind(kind), all)?))
}
