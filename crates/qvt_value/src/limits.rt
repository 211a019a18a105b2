//! The limits of values.

ghost use Rattle.std.specs.Prelude.{◌≡◌};
ghost use Rattle.qvt_value.specs.Limits.{is_beyond, limited};

use crate::value::{Reason, Value};
use qvt_base::names::count_chars;
use qvt_base::numbers::Place;

/// How many items a collection holds at most, and how many characters a String.
pub const MOST: usize = 1_000_000;

/// Whether a String has too many characters, or a collection too many items.
pub fn is_beyond(value: &Value) -> bool
    ensures { result ≡ is_beyond value.now }
{
    match value {
        Value::Str(text) => count_chars(text.as_str()) > MOST,
        Value::Coll(_, items) => items.len() > MOST,
        _ => false,
    }
}

/// The value, or TooLarge in its place.
#[tactic(auto, unfolding(crate::specs::Limits::limited))]
pub fn limited(place: Place, value: Value) -> Value
    ensures { result ≡ limited place value }
{
    if is_beyond(&value) {
        return Value::Invalid(Reason::TooLarge, place);
    }
    value
}
