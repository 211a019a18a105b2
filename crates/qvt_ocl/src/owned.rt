//! Operations on a collection that is handed over: what is built on its list takes the list as it is.

ghost use Rattle.std.specs.Prelude.{◌≡◌, [], ◌∷◌, IfOk};
ghost use Rattle.qvt_value.specs.declared.value.Value.TheViews.{Coll};
ghost use Rattle.qvt_ocl_words.specs.Operation.{answered};

use crate::lent::on_items;
use crate::made::{kept, union_onto, with_last};
use crate::operands::is_invalid;
use crate::ordered::{append_onto, reverse_all};
use qvt_base::list_fault::ListFault;
use qvt_base::numbers::Place;
use qvt_ocl_words::op::Op;
use qvt_value::value::{Kind, Value, Values};
use std::alloc::Global;
use std::slice;

#[tactic(auto, using(crate::proofs::Built::as_set, crate::proofs::Built::as_bag, crate::proofs::Built::as_sequence, crate::proofs::Built::as_ordered_set, crate::proofs::Built::reverse_is))]
fn alone(
    alloc: Global,
    op: Op,
    place: Place,
    kind: Kind,
    items: Values,
) -> Result<Option<Value>, ListFault>
    ensures { IfOk result (λ answer. answer ≡ answered op place (Coll kind items) []) }
{
    match op {
        Op::AsSet => Ok(Some(kept(alloc, Kind::Set, items)?)),
        Op::AsBag => Ok(Some(kept(alloc, Kind::Bag, items)?)),
        Op::AsSequence => Ok(Some(kept(alloc, Kind::Sequence, items)?)),
        Op::AsOrderedSet => Ok(Some(kept(alloc, Kind::OrderedSet, items)?)),
        Op::Reverse => reverse_all(alloc, kind, items),
        _ => on_items(alloc, op, place, kind, items.as_slice(), &[]),
    }
}

#[tactic(auto, using(crate::proofs::Built::including_is, crate::proofs::Built::append_is, crate::proofs::Built::union_is))]
fn with_one(
    alloc: Global,
    op: Op,
    place: Place,
    kind: Kind,
    items: Values,
    arg: &Value,
) -> Result<Option<Value>, ListFault>
    ensures { IfOk result (λ answer. answer ≡ answered op place (Coll kind items) (arg.now ∷ [])) }
{
    let args = slice::from_ref(arg);
    if is_invalid(arg) {
        return on_items(alloc, op, place, kind, items.as_slice(), args);
    }
    match op {
        Op::Including => Ok(Some(with_last(alloc, kind, items, arg)?)),
        Op::Append => append_onto(alloc, kind, items, arg),
        Op::Union => match arg {
            Value::Coll(other, others) => union_onto(alloc, kind, items, *other, others.as_slice()),
            _ => on_items(alloc, op, place, kind, items.as_slice(), args),
        },
        _ => on_items(alloc, op, place, kind, items.as_slice(), args),
    }
}

/// What is answered of the collection of the kind with these items, whatever its size.
pub fn on_owned(
    alloc: Global,
    op: Op,
    place: Place,
    kind: Kind,
    items: Values,
    args: &[Value],
) -> Result<Option<Value>, ListFault>
    ensures { IfOk result (λ answer. answer ≡ answered op place (Coll kind items) args.now) }
{
    match args {
        [] => alone(alloc, op, place, kind, items),
        [arg] => with_one(alloc, op, place, kind, items, arg),
        _ => on_items(alloc, op, place, kind, items.as_slice(), args),
    }
}
