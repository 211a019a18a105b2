//! Makes values that are ten thousand collections deep, copies, compares, hashes and drops them:
//! a walk down such a value needs less than the 8 MiB that a machine's stack has.

use qvt_base::copied::Copied;
use qvt_base::list_fault::ListFault;
use qvt_base::lists::Bytes;
use qvt_base::seq::Seq;
use qvt_value::fault::ValueFault;
use qvt_value::make::make;
use qvt_value::order::compare;
use qvt_value::value::{Kind, Value, Values};
use std::alloc::Global;
use std::cmp::Ordering;

const DEPTH: u32 = 10_000;

/// A Sequence with one item, it with one item, and so on, and the number in the last.
fn nested(alloc: Global, number: i64) -> Result<Value, ListFault> {
    let mut value = Value::Int(number);
    for _level in 0..DEPTH {
        let mut items = Seq::new(alloc);
        items.push(value)?;
        value = Value::Coll(Kind::Sequence, items);
    }
    Ok(value)
}

/// Whether a value equals its copy.
fn equals_its_copy(alloc: Global, value: &Value) -> Result<bool, ListFault> {
    let copy = value.copy(alloc)?;
    Ok(compare(value, &copy) == Ordering::Equal)
}

/// Whether a value is below a deep one with this number.
fn is_below(alloc: Global, value: &Value, number: i64) -> Result<bool, ListFault> {
    let greater = nested(alloc, number)?;
    Ok(compare(value, &greater) == Ordering::Less)
}

/// Two copies of a value.
fn copies_of(alloc: Global, value: &Value) -> Result<Values, ListFault> {
    let mut copies = Seq::new(alloc);
    copies.push(value.copy(alloc)?)?;
    copies.push(value.copy(alloc)?)?;
    Ok(copies)
}

/// Whether the value stands once in an OrderedSet that is made of two copies of it.
fn stands_once(alloc: Global, value: &Value) -> Result<bool, ValueFault> {
    let made = make(alloc, Kind::OrderedSet, copies_of(alloc, value)?)?;
    match &made {
        Value::Coll(_, items) => match items.as_slice() {
            [one] => Ok(compare(one, value) == Ordering::Equal),
            _ => Ok(false),
        },
        _ => Ok(false),
    }
}

fn walks_down(alloc: Global) -> Result<bool, ValueFault> {
    let value = nested(alloc, 1)?;
    Ok(
        equals_its_copy(alloc, &value)?
            && is_below(alloc, &value, 2)?
            && stands_once(alloc, &value)?,
    )
}

pub fn run(alloc: Global, out: &mut Bytes) -> Option<()> {
    let told = match walks_down(alloc) {
        Ok(true) => "copied, compared, hashed and dropped\n",
        Ok(false) => "compared wrongly\n",
        Err(ValueFault::NoMemory) => "no memory\n",
    };
    out.extend(told.as_bytes()).ok()
}
