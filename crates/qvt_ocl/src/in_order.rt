//! Lists in order: one more item is put where it belongs, and nothing is sorted.

ghost use Rattle.std.specs.Prelude.{◌≡◌, ◌≤◌, ◌++◌, [], ◌∷◌, length, IfOk};
ghost use Rattle.std.specs.List.{insert};
ghost use Rattle.qvt_value.specs.declared.value.Kind.TheVariants.{Set};
ghost use Rattle.qvt_value.specs.Kept.{sorted};
ghost use Rattle.qvt_value.specs.Make.{made};
ghost use Rattle.qvt_value.specs.Order.{order_of};
ghost use Rattle.qvt_ocl_words.specs.Lists.{has};

use qvt_base::copied::Copied;
use qvt_base::list_fault::ListFault;
use qvt_base::seq::Seq;
use qvt_value::order::compare;
use qvt_value::value::{Value, Values};
use std::alloc::Global;

/// Whether the item stands in the list, which is in order.
fn stands(items: &[Value], item: &Value) -> bool
    requires { sorted order_of items.now ≡ items.now }
    ensures { result ≡ has items.now item.now }
{
    match items.binary_search(item) {
        Ok(_) => true,
        Err(_) => false,
    }
}

/// Where the list, which is in order, has the first item that is not below this one.
fn place_of(items: &[Value], item: &Value) -> usize
    requires { sorted order_of items.now ≡ items.now }
    ensures within { result ≤ length items.now }
    ensures place { insert items.now result item.now ≡ sorted order_of (items.now ++ item.now ∷ []) }
{
    items.partition_point(|other| compare(other, item).is_lt())
}

/// The list, which is in order, with a copy of the item put where it belongs.
pub fn with_placed(alloc: Global, items: Values, item: &Value) -> Result<Values, ListFault>
    requires { sorted order_of items ≡ items }
    ensures { IfOk result (λ all. all ≡ sorted order_of (items ++ item.now ∷ [])) }
{
    let place = place_of(items.as_slice(), item);
    let copy = item.copy(alloc)?;
    let mut all = items.into_vec();
    match all.insert(place, copy) {
        Ok(()) => Ok(Seq::from_vec(all)),
        Err(_) => Err(ListFault::NoMemory),
    }
}

/// The list of a Set with a copy of the item put where it belongs, unless it stands there.
#[tactic(auto, using(crate::proofs::Placed::set_in_order, crate::proofs::Placed::set_stays, crate::proofs::Placed::set_joins))]
pub fn with_new_placed(alloc: Global, items: Values, item: &Value) -> Result<Values, ListFault>
    requires { made Set items ≡ items }
    ensures { IfOk result (λ all. all ≡ made Set (items ++ item.now ∷ [])) }
{
    if stands(items.as_slice(), item) {
        return Ok(items);
    }
    let all = with_placed(alloc, items, item)?;
    Ok(all)
}
