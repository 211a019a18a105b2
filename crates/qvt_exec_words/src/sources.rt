//! What stands before a dot or an arrow (OCL 2.4, 7.5.3 and 7.6.2), and the kinds of what is made of it.

ghost use Rattle.std.specs.Prelude.{◌≡◌, ◌∷◌, [], IfOk};
ghost use Rattle.qvt_run_rules.specs.Sources.{wrapped_if, before_arrow, items_of, collected_kind, sorted_kind, reached_kind, without_source};

use qvt_base::copied::Copied;
use qvt_base::list_fault::ListFault;
use qvt_base::numbers::Place;
use qvt_base::seq::Seq;
use qvt_ocl::kinds::is_in_order;
use qvt_ocl::operands::{invalid_in, is_invalid};
use qvt_ocl_lists::items::is_null;
use qvt_value::value::{Kind, Reason, Value, Values};
use std::alloc::Global;

/// The list of the one value.
fn alone(alloc: Global, value: Value) -> Result<Values, ListFault>
    ensures { IfOk result (λ items. items ≡ value ∷ []) }
{
    let mut items = Seq::new(alloc);
    items.push(value)?;
    Ok(items)
}

/// The value, in a Set of its own where it is to be wrapped.
fn wrapped_if(alloc: Global, wrap: bool, value: Value) -> Result<Value, ListFault>
    ensures { IfOk result (λ source. source ≡ wrapped_if wrap value) }
{
    if !wrap {
        return Ok(value);
    }
    Ok(Value::Coll(Kind::Set, alone(alloc, value)?))
}

/// What an arrow goes over, where a single value is wrapped in a Set. Of null it is the empty
/// collection of the kind.
#[tactic(auto, using(crate::proofs::Before::neither))]
pub fn before_arrow(alloc: Global, wrap: bool, kind: Kind, value: Value) -> Result<Value, ListFault>
    ensures { IfOk result (λ source. source ≡ before_arrow wrap kind value) }
{
    if is_null(&value) {
        return Ok(Value::Coll(kind, Seq::new(alloc)));
    }
    if is_invalid(&value) {
        return Ok(value);
    }
    wrapped_if(alloc, wrap, value)
}

/// The items of a collection; a single value is one, and null none.
#[tactic(auto, using(crate::proofs::Before::of_single, crate::proofs::Before::of_collection))]
pub fn items_of(alloc: Global, value: Value) -> Result<Values, ListFault>
    ensures { IfOk result (λ items. items ≡ items_of value) }
{
    if is_null(&value) {
        return Ok(Seq::new(alloc));
    }
    match value.into_items() {
        Ok((_, items)) => Ok(items),
        Err(single) => alone(alloc, single),
    }
}

/// The kind of what is collected from a kind.
pub fn collected_kind(kind: Kind) -> Kind
    ensures { result ≡ collected_kind kind }
{
    if is_in_order(kind) {
        Kind::Sequence
    } else {
        Kind::Bag
    }
}

/// The kind of what is sorted.
pub fn sorted_kind(kind: Kind) -> Kind
    ensures { result ≡ sorted_kind kind }
{
    match kind {
        Kind::Set => Kind::OrderedSet,
        Kind::OrderedSet => Kind::OrderedSet,
        Kind::Bag => Kind::Sequence,
        Kind::Sequence => Kind::Sequence,
    }
}

/// The kind of what a closure reaches.
pub fn reached_kind(kind: Kind) -> Kind
    ensures { result ≡ reached_kind kind }
{
    if is_in_order(kind) {
        Kind::OrderedSet
    } else {
        Kind::Set
    }
}

/// What a dot gives of null where a collection is: a copy of the first argument that is invalid, or
/// NullSource.
pub fn without_source(alloc: Global, place: Place, args: &[Value]) -> Result<Value, ListFault>
    ensures { IfOk result (λ answer. answer ≡ without_source place args.now) }
{
    match invalid_in(args) {
        Some(invalid) => Ok(invalid.copy(alloc)?),
        None => Ok(Value::Invalid(Reason::NullSource, place)),
    }
}
