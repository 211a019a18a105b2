//! The least and the greatest item.

ghost use Rattle.std.specs.Prelude.{◌≡◌, IfOk};
ghost use Rattle.std.specs.List.{fold};
ghost use Rattle.qvt_ocl_words.specs.Lists.{lesser, greater, best_by};

use crate::items::{are_ordered, has_null};
use qvt_base::copied::Copied;
use qvt_base::list_fault::ListFault;
use qvt_base::numbers::Place;
use qvt_value::order::compare;
use qvt_value::value::{Reason, Value};
use std::alloc::Global;

fn least<'a>(first: &'a Value, rest: &'a [Value]) -> &'a Value
    ensures { result.now ≡ fold lesser first.now rest.now }
{
    let mut best = first;
    for value in rest {
        if compare(value, best).is_lt() {
            best = value;
        }
    }
    best
}

fn greatest<'a>(first: &'a Value, rest: &'a [Value]) -> &'a Value
    ensures { result.now ≡ fold greater first.now rest.now }
{
    let mut best = first;
    for value in rest {
        if compare(best, value).is_lt() {
            best = value;
        }
    }
    best
}

/// The least item, of Integers or of Strings.
pub fn least_of(alloc: Global, place: Place, values: &[Value]) -> Result<Option<Value>, ListFault>
    ensures { IfOk result (λ answer. answer ≡ best_by lesser place values.now) }
{
    match values.split_first() {
        None => Ok(Some(Value::Invalid(Reason::EmptySource, place))),
        Some((first, rest)) => {
            if has_null(values) {
                return Ok(Some(Value::Invalid(Reason::NullValue, place)));
            }
            if !are_ordered(values) {
                return Ok(None);
            }
            Ok(Some(least(first, rest).copy(alloc)?))
        }
    }
}

/// The greatest item, of Integers or of Strings.
pub fn greatest_of(
    alloc: Global,
    place: Place,
    values: &[Value],
) -> Result<Option<Value>, ListFault>
    ensures { IfOk result (λ answer. answer ≡ best_by greater place values.now) }
{
    match values.split_first() {
        None => Ok(Some(Value::Invalid(Reason::EmptySource, place))),
        Some((first, rest)) => {
            if has_null(values) {
                return Ok(Some(Value::Invalid(Reason::NullValue, place)));
            }
            if !are_ordered(values) {
                return Ok(None);
            }
            Ok(Some(greatest(first, rest).copy(alloc)?))
        }
    }
}
