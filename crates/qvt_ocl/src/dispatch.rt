//! The operations by the sorts of their operands, none of which is invalid, or null where it may not be.

ghost use Rattle.std.specs.Prelude.{◌≡◌, IfOk};
ghost use Rattle.qvt_ocl_words.specs.Operation.{on_boolean, on_integer, on_string, on_collection, with_other, with_place, on_present};

use crate::collections;
use crate::operands::takes_item;
use qvt_base::list_fault::ListFault;
use qvt_base::numbers::Place;
use qvt_ocl_texts::{integers, strings};
use qvt_ocl_words::op::Op;
use qvt_value::value::{Kind, Value};
use std::alloc::Global;

#[tactic(auto, unfolding(qvt_ocl_words::specs::Operation::on_boolean))]
fn on_boolean(
    alloc: Global,
    op: Op,
    truth: bool,
    args: &[Value],
) -> Result<Option<Value>, ListFault>
    ensures { IfOk result (λ answer. answer ≡ on_boolean op truth args.now) }
{
    match args {
        [] => integers::of_boolean(alloc, op, truth),
        _ => Ok(None),
    }
}

#[tactic(auto, unfolding(qvt_ocl_words::specs::Operation::on_integer))]
fn on_integer(
    alloc: Global,
    op: Op,
    place: Place,
    a: i64,
    args: &[Value],
) -> Result<Option<Value>, ListFault>
    ensures { IfOk result (λ answer. answer ≡ on_integer op place a args.now) }
{
    match args {
        [] => integers::of_integer(alloc, op, place, a),
        [only] => match only {
            Value::Int(b) => Ok(integers::of_integers(op, place, a, *b)),
            _ => Ok(None),
        },
        _ => Ok(None),
    }
}

#[tactic(auto, unfolding(qvt_ocl_words::specs::Operation::on_string))]
fn on_string(
    alloc: Global,
    op: Op,
    place: Place,
    s: &str,
    args: &[Value],
) -> Result<Option<Value>, ListFault>
    ensures { IfOk result (λ answer. answer ≡ on_string op place s.now args.now) }
{
    match args {
        [] => strings::of_string(alloc, op, place, s),
        [only] => match only {
            Value::Str(t) => strings::of_strings(alloc, op, place, s, t.as_str()),
            Value::Int(i) => strings::of_string_at(alloc, op, place, s, *i),
            _ => Ok(None),
        },
        [first, second] => match first {
            Value::Int(l) => match second {
                Value::Int(u) => strings::of_string_span(alloc, op, place, s, *l, *u),
                _ => Ok(None),
            },
            _ => Ok(None),
        },
        _ => Ok(None),
    }
}

#[tactic(auto, unfolding(qvt_ocl_words::specs::Operation::with_other))]
fn with_other(
    alloc: Global,
    op: Op,
    place: Place,
    kind: Kind,
    items: &[Value],
    arg: &Value,
) -> Result<Option<Value>, ListFault>
    ensures { IfOk result (λ answer. answer ≡ with_other op place kind items.now arg.now) }
{
    match arg {
        Value::Int(i) => collections::of_collection_at(alloc, op, place, kind, items, *i),
        Value::Coll(other, others) => collections::of_collections(
            alloc,
            op,
            kind,
            items,
            *other,
            others.as_slice(),
        ),
        _ => Ok(None),
    }
}

#[tactic(auto, unfolding(qvt_ocl_words::specs::Operation::with_place))]
fn with_place(
    alloc: Global,
    op: Op,
    place: Place,
    kind: Kind,
    items: &[Value],
    i: i64,
    arg: &Value,
) -> Result<Option<Value>, ListFault>
    ensures { IfOk result (λ answer. answer ≡ with_place op place kind items.now i arg.now) }
{
    match op {
        Op::InsertAt => collections::of_collection_place(
            alloc,
            Op::InsertAt,
            place,
            kind,
            items,
            i,
            arg,
        ),
        _ => match arg {
            Value::Int(u) => collections::of_collection_span(alloc, op, place, kind, items, i, *u),
            _ => Ok(None),
        },
    }
}

/// A collection with its arguments.
#[tactic(auto, unfolding(qvt_ocl_words::specs::Operation::on_collection))]
pub fn on_collection(
    alloc: Global,
    op: Op,
    place: Place,
    kind: Kind,
    items: &[Value],
    args: &[Value],
) -> Result<Option<Value>, ListFault>
    ensures { IfOk result (λ answer. answer ≡ on_collection op place kind items.now args.now) }
{
    match args {
        [] => collections::of_collection(alloc, op, place, kind, items),
        [only] => {
            if takes_item(op) {
                collections::of_collection_item(alloc, op, place, kind, items, only)
            } else {
                with_other(alloc, op, place, kind, items, only)
            }
        }
        [first, second] => match first {
            Value::Int(i) => with_place(alloc, op, place, kind, items, *i, second),
            _ => Ok(None),
        },
        _ => Ok(None),
    }
}

/// What a source that is there gives, by its sort.
#[tactic(auto, unfolding(qvt_ocl_words::specs::Operation::on_present))]
pub fn on_present(
    alloc: Global,
    op: Op,
    place: Place,
    source: &Value,
    args: &[Value],
) -> Result<Option<Value>, ListFault>
    ensures { IfOk result (λ answer. answer ≡ on_present op place source.now args.now) }
{
    match source {
        Value::Bool(truth) => on_boolean(alloc, op, *truth, args),
        Value::Int(a) => on_integer(alloc, op, place, *a, args),
        Value::Str(s) => on_string(alloc, op, place, s.as_str(), args),
        Value::Coll(kind, items) => on_collection(alloc, op, place, *kind, items.as_slice(), args),
        _ => Ok(None),
    }
}
