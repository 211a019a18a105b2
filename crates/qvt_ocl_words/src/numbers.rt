//! Numbers that may not fit.

ghost use Rattle.std.specs.Prelude.{◌≡◌, ◌+◌, ℤ, pos, SomeIff, FitsSigned};
ghost use Rattle.std.specs.Int.{w64};
ghost use Rattle.qvt_ocl_words.specs.Integers.{whole};

use qvt_base::numbers::Place;
use qvt_value::value::{Reason, Value};

/// The Integer, or Overflow where there is none.
pub fn whole(place: Place, number: Option<i64>) -> Value
    ensures { (z : ℤ) → SomeIff number (FitsSigned w64 z) z → result ≡ whole place z }
{
    match number {
        Some(number) => Value::Int(number),
        None => Value::Invalid(Reason::Overflow, place),
    }
}

/// The number as an Integer.
pub fn number(place: Place, n: usize) -> Value
    ensures { result ≡ whole place (pos n) }
{
    match i64::try_from(n) {
        Ok(number) => Value::Int(number),
        Err(_) => Value::Invalid(Reason::Overflow, place),
    }
}

/// The number after this one as an Integer.
pub fn following(place: Place, n: usize) -> Value
    ensures { result ≡ whole place (pos (n + 1)) }
{
    match i64::try_from(n) {
        Ok(number) => whole(place, number.checked_add(1)),
        Err(_) => Value::Invalid(Reason::Overflow, place),
    }
}
