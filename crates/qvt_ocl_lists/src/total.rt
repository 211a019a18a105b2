//! Sums.

ghost use Rattle.std.specs.Prelude.{◌≡◌, pos};
ghost use Rattle.qvt_ocl_words.specs.Lists.{sum_from, sum_of};

use crate::items::{are_integers, has_null};
use qvt_base::numbers::Place;
use qvt_value::value::{Reason, Value};

/// The sum from the left, of Integers alone.
fn sum_from(place: Place, values: &[Value]) -> Option<Value>
    ensures { result ≡ sum_from place (pos 0) values.now }
{
    let mut sum: i64 = 0;
    for value in values {
        match value {
            Value::Int(number) => match sum.checked_add(*number) {
                Some(more) => sum = more,
                None => return Some(Value::Invalid(Reason::Overflow, place)),
            },
            _ => return None,
        }
    }
    Some(Value::Int(sum))
}

/// The sum of Integers.
pub fn sum_of(place: Place, values: &[Value]) -> Option<Value>
    ensures { result ≡ sum_of place values.now }
{
    if has_null(values) {
        return Some(Value::Invalid(Reason::NullValue, place));
    }
    if !are_integers(values) {
        return None;
    }
    sum_from(place, values)
}
