//! Operations on a collection whose items are lent. Copied are the items alone that the answer is made of.

ghost use Rattle.std.specs.Prelude.{◌≡◌, [], IfOk, List};
ghost use Rattle.qvt_value.specs.declared.value.Value.{Value};
ghost use Rattle.qvt_value.specs.declared.value.Value.TheViews.{Coll};
ghost use Rattle.qvt_ocl_words.specs.Operation.{tested, compared, on_valid, answered};

use crate::dispatch::on_collection;
use crate::operands::{invalid_in, is_equality, is_test, lacks_argument};
use qvt_base::copied::Copied;
use qvt_base::list_fault::ListFault;
use qvt_base::numbers::Place;
use qvt_ocl_words::op::Op;
use qvt_value::items::is_collection_of;
use qvt_value::value::{Kind, Reason, Value};
use std::alloc::Global;

/// What the tests say: a collection is neither null nor invalid.
#[tactic(auto, unfolding(qvt_ocl_words::specs::Operation::tested))]
fn tested(op: Op, args: &[Value]) -> Option<Value>
    ensures { (k : Kind) (xs : List Value) → result ≡ tested op (Coll k xs) args.now }
{
    match op {
        Op::IsUndefined => match args {
            [] => Some(Value::Bool(false)),
            _ => None,
        },
        Op::IsInvalid => match args {
            [] => Some(Value::Bool(false)),
            _ => None,
        },
        _ => None,
    }
}

/// What the comparison says.
#[tactic(auto, unfolding(qvt_ocl_words::specs::Operation::compared))]
fn compared(op: Op, kind: Kind, items: &[Value], args: &[Value]) -> Option<Value>
    ensures { result ≡ compared op (Coll kind items.now) args.now }
{
    match op {
        Op::Equal => match args {
            [other] => Some(Value::Bool(is_collection_of(kind, items, other))),
            _ => None,
        },
        Op::NotEqual => match args {
            [other] => Some(Value::Bool(!is_collection_of(kind, items, other))),
            _ => None,
        },
        _ => None,
    }
}

#[tactic(auto, using(crate::proofs::Built::unless_null_coll), unfolding(qvt_ocl_words::specs::Operation::on_valid))]
fn on_valid(
    alloc: Global,
    op: Op,
    place: Place,
    kind: Kind,
    items: &[Value],
    args: &[Value],
) -> Result<Option<Value>, ListFault>
    ensures { IfOk result (λ answer. answer ≡ on_valid op place (Coll kind items.now) args.now) }
{
    if is_equality(op) {
        return Ok(compared(op, kind, items, args));
    }
    if lacks_argument(op, args) {
        return Ok(Some(Value::Invalid(Reason::NullSource, place)));
    }
    on_collection(alloc, op, place, kind, items, args)
}

/// What is answered of the collection of the kind with these items, whatever its size.
#[tactic(auto, unfolding(qvt_ocl_words::specs::Operation::answered))]
pub fn on_items(
    alloc: Global,
    op: Op,
    place: Place,
    kind: Kind,
    items: &[Value],
    args: &[Value],
) -> Result<Option<Value>, ListFault>
    ensures { IfOk result (λ answer. answer ≡ answered op place (Coll kind items.now) args.now) }
{
    if is_test(op) {
        return Ok(tested(op, args));
    }
    match invalid_in(args) {
        Some(invalid) => Ok(Some(invalid.copy(alloc)?)),
        None => on_valid(alloc, op, place, kind, items, args),
    }
}
