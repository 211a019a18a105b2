//! Calls of `apply`, also with the source lent, handed over, and as made, and whether they are answered as they should be.

ghost use Rattle.std.specs.Prelude.{◌≡◌, IfSome};
ghost use Rattle.qvt_value.specs.Items.{stands_for};

use crate::values::{DEEPEST, place, value_of, values_of};
use qvt_base::copied::Copied;
use qvt_ocl::apply::{apply, apply_lent, apply_made_lent, apply_made_owned, apply_owned};
use qvt_ocl::fault::OclFault;
use qvt_ocl_made::as_made::is_as_made;
use qvt_ocl_words::op::Op;
use qvt_value::items::Items;
use qvt_value::value::Value;
use serde_json::Value as Json;
use std::alloc::Global;

const OPS: [Op; 56] = [
    Op::Equal,
    Op::NotEqual,
    Op::IsUndefined,
    Op::IsInvalid,
    Op::Plus,
    Op::Minus,
    Op::Times,
    Op::Negate,
    Op::Less,
    Op::LessEqual,
    Op::Greater,
    Op::GreaterEqual,
    Op::Abs,
    Op::Min,
    Op::Max,
    Op::Div,
    Op::Mod,
    Op::ToString,
    Op::Concat,
    Op::Size,
    Op::Substring,
    Op::At,
    Op::Characters,
    Op::IndexOf,
    Op::StartsWith,
    Op::EndsWith,
    Op::ToUpper,
    Op::ToLower,
    Op::FirstToUpper,
    Op::FirstToLower,
    Op::ToInteger,
    Op::IsEmpty,
    Op::NotEmpty,
    Op::Includes,
    Op::Excludes,
    Op::Count,
    Op::IncludesAll,
    Op::ExcludesAll,
    Op::Including,
    Op::Excluding,
    Op::Union,
    Op::Flatten,
    Op::AsSet,
    Op::AsBag,
    Op::AsSequence,
    Op::AsOrderedSet,
    Op::Sum,
    Op::Intersection,
    Op::First,
    Op::Last,
    Op::Append,
    Op::Prepend,
    Op::InsertAt,
    Op::Reverse,
    Op::SubSequence,
    Op::SubOrderedSet,
];

/// What came of a case.
pub enum Outcome {
    /// The answer is the one that is listed.
    Right,
    Other,
    /// The line is no case.
    Unread,
}

fn op_of(alloc: Global, name: &str) -> Option<Op> {
    for op in OPS {
        let own = format!(in alloc; "{op:?}").ok()?;
        if own.as_str() == name {
            return Some(op);
        }
    }
    None
}

/// What a call is to answer: a value, or none where it is TypeFault.
fn wanted_of(alloc: Global, json: &Json) -> Option<Option<Value>> {
    match json.get("fault") {
        Some(_) => Some(None),
        None => Some(Some(value_of(alloc, json, DEEPEST)?)),
    }
}

fn is_wanted(answer: Result<Value, OclFault>, wanted: &Option<Value>) -> bool {
    match answer {
        Ok(answer) => match wanted {
            Some(value) => answer == *value,
            None => false,
        },
        Err(OclFault::TypeFault) => wanted.is_none(),
        Err(OclFault::NoMemory) => false,
    }
}

/// The source with its items lent.
fn lent(alloc: Global, source: &Value) -> Option<Items<'_>>
    ensures { IfSome result (λ items. stands_for items ≡ source.now) }
{
    match source {
        Value::Coll(kind, items) => Some(Items::Lent(*kind, items.as_slice())),
        other => Some(Items::Made(other.copy(alloc).ok()?)),
    }
}

/// Whether the value has at most so many items or bytes that it is copied in no time.
fn is_small(value: &Value) -> bool {
    match value {
        Value::Str(text) => text.len() <= 1000,
        Value::Coll(_, items) => items.len() <= 1000,
        _ => true,
    }
}

/// Whether the call is answered so with the items of the source lent, and with the source handed over.
fn is_answered_so(
    alloc: Global,
    op: Op,
    source: &Value,
    args: &[Value],
    wanted: &Option<Value>,
) -> Option<bool> {
    let items = lent(alloc, source)?;
    if !is_wanted(apply_lent(alloc, op, place(1), &items, args), wanted) {
        return Some(false);
    }
    let handed = source.copy(alloc).ok()?;
    Some(is_wanted(apply_owned(alloc, op, place(1), handed, args), wanted))
}

/// Whether the same holds of the calls on what is as made. A source that is not has none.
fn is_answered_as_made(
    alloc: Global,
    op: Op,
    source: &Value,
    args: &[Value],
    wanted: &Option<Value>,
) -> Option<bool> {
    if !is_as_made(alloc, source).ok()? {
        return Some(true);
    }
    let items = lent(alloc, source)?;
    if !is_wanted(apply_made_lent(alloc, op, place(1), &items, args), wanted) {
        return Some(false);
    }
    let handed = source.copy(alloc).ok()?;
    Some(is_wanted(apply_made_owned(alloc, op, place(1), handed, args), wanted))
}

/// Whether the call is answered as it should be; where the source is small, also lent, handed over, and as made.
fn is_answered(alloc: Global, case: &Json) -> Option<bool> {
    let op = op_of(alloc, case.get(0)?.as_str()?)?;
    let source = value_of(alloc, case.get(1)?, DEEPEST)?;
    let args = values_of(alloc, case.get(2)?, DEEPEST)?;
    let args = args.as_slice();
    let wanted = wanted_of(alloc, case.get(3)?)?;
    if !is_wanted(apply(alloc, op, place(1), &source, args), &wanted) {
        return Some(false);
    }
    if !is_small(&source) {
        return Some(true);
    }
    if !is_answered_so(alloc, op, &source, args, &wanted)? {
        return Some(false);
    }
    is_answered_as_made(alloc, op, &source, args, &wanted)
}

/// What comes of the call that a line holds.
pub fn judged(alloc: Global, line: &str) -> Outcome {
    let Ok(case) = Json::from_str(alloc, line) else {
        return Outcome::Unread;
    };
    match is_answered(alloc, &case) {
        Some(true) => Outcome::Right,
        Some(false) => Outcome::Other,
        None => Outcome::Unread,
    }
}
