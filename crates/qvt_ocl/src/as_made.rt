//! Operations on a collection that is as made: `including` and `append` put one item into its list, and sort nothing.

ghost use Rattle.std.specs.Prelude.{◌≡◌, ◌++◌, [], ◌∷◌, IfOk};
ghost use Rattle.qvt_value.specs.declared.value.Value.TheViews.{Coll};
ghost use Rattle.qvt_value.specs.Kept.{firsts};
ghost use Rattle.qvt_value.specs.Make.{made};
ghost use Rattle.qvt_value.specs.Order.{order_of};
ghost use Rattle.qvt_ocl_words.specs.Collections.{kept, where', is_in_order};
ghost use Rattle.qvt_ocl_words.specs.Operation.{answered};

use crate::in_order::{with_new_placed, with_placed};
use crate::kinds::is_in_order;
use crate::lent::on_items;
use crate::made::with_last;
use crate::operands::is_invalid;
use crate::owned::on_owned;
use qvt_base::copied::Copied;
use qvt_base::list_fault::ListFault;
use qvt_base::numbers::Place;
use qvt_ocl_lists::items::has;
use qvt_ocl_words::op::Op;
use qvt_value::copy::copies;
use qvt_value::value::{Kind, Value, Values};
use std::alloc::Global;
use std::slice;

/// The list, in which nothing stands twice, with a copy of the item put last, unless it stands there.
#[tactic(auto, using(crate::proofs::Growing::stays, crate::proofs::Growing::joins))]
fn with_new(alloc: Global, items: Values, item: &Value) -> Result<Values, ListFault>
    requires { firsts order_of items ≡ items }
    ensures { IfOk result (λ all. all ≡ firsts order_of (items ++ item.now ∷ [])) }
{
    if has(items.as_slice(), item) {
        return Ok(items);
    }
    let mut all = items;
    all.push(item.copy(alloc)?)?;
    Ok(all)
}

/// The collection with one more item, put last.
#[tactic(auto, unfolding(qvt_ocl_words::specs::Collections::kept))]
fn put_last(alloc: Global, kind: Kind, items: Values, item: &Value) -> Result<Value, ListFault>
    requires { made kind items ≡ items }
    ensures { IfOk result (λ answer. answer ≡ kept kind (items ++ item.now ∷ [])) }
{
    match kind {
        Kind::Set => Ok(Value::Coll(Kind::Set, with_new_placed(alloc, items, item)?)),
        Kind::Bag => Ok(Value::Coll(Kind::Bag, with_placed(alloc, items, item)?)),
        Kind::Sequence => with_last(alloc, Kind::Sequence, items, item),
        Kind::OrderedSet => Ok(Value::Coll(Kind::OrderedSet, with_new(alloc, items, item)?)),
    }
}

fn append(
    alloc: Global,
    kind: Kind,
    items: Values,
    item: &Value,
) -> Result<Option<Value>, ListFault>
    requires { made kind items ≡ items }
    ensures { IfOk result (λ answer. answer ≡ where' (is_in_order kind) (kept kind (items ++ item.now ∷ []))) }
{
    if !is_in_order(kind) {
        return Ok(None);
    }
    Ok(Some(put_last(alloc, kind, items, item)?))
}

#[tactic(auto, using(crate::proofs::Built::including_is, crate::proofs::Built::append_is))]
fn with_one(
    alloc: Global,
    op: Op,
    place: Place,
    kind: Kind,
    items: Values,
    arg: &Value,
) -> Result<Option<Value>, ListFault>
    requires { made kind items ≡ items }
    ensures { IfOk result (λ answer. answer ≡ answered op place (Coll kind items) (arg.now ∷ [])) }
{
    let args = slice::from_ref(arg);
    if is_invalid(arg) {
        return on_owned(alloc, op, place, kind, items, args);
    }
    match op {
        Op::Including => Ok(Some(put_last(alloc, kind, items, arg)?)),
        Op::Append => append(alloc, kind, items, arg),
        _ => on_owned(alloc, op, place, kind, items, args),
    }
}

/// What is answered of the collection of the kind with these items, whatever its size. The items are handed over.
pub fn on_list(
    alloc: Global,
    op: Op,
    place: Place,
    kind: Kind,
    items: Values,
    args: &[Value],
) -> Result<Option<Value>, ListFault>
    requires { made kind items ≡ items }
    ensures { IfOk result (λ answer. answer ≡ answered op place (Coll kind items) args.now) }
{
    match args {
        [arg] => with_one(alloc, op, place, kind, items, arg),
        _ => on_owned(alloc, op, place, kind, items, args),
    }
}

/// What is answered of the collection of the kind with these items, whatever its size. The items are lent.
pub fn on_lent(
    alloc: Global,
    op: Op,
    place: Place,
    kind: Kind,
    items: &[Value],
    args: &[Value],
) -> Result<Option<Value>, ListFault>
    requires { made kind items.now ≡ items.now }
    ensures { IfOk result (λ answer. answer ≡ answered op place (Coll kind items.now) args.now) }
{
    if matches!(op, Op::Including | Op::Append) {
        let copies = copies(alloc, items)?;
        return on_list(alloc, op, place, kind, copies, args);
    }
    on_items(alloc, op, place, kind, items, args)
}
