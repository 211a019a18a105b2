//! Operations on Booleans and Integers (OCL 2.4, 11.5).

ghost use Rattle.std.specs.Prelude.{◌≡◌, IfOk, pos, unsigned_abs};
ghost use Rattle.std.specs.Fmt.{signed_decimal};
ghost use Rattle.qvt_ocl_words.specs.Integers.{whole, of_boolean, of_integer, of_integers, quotient, remainder, spelled};

use qvt_base::list_fault::ListFault;
use qvt_base::numbers::Place;
use qvt_base::text::Text;
use qvt_ocl_words::numbers::whole;
use qvt_ocl_words::op::Op;
use qvt_value::value::{Reason, Value};
use std::alloc::Global;

fn absolute(place: Place, a: i64) -> Value
    ensures { result ≡ whole place (pos (unsigned_abs a)) }
{
    if a < 0 {
        whole(place, a.checked_neg())
    } else {
        Value::Int(a)
    }
}

fn quotient(place: Place, a: i64, b: i64) -> Value
    ensures { result ≡ quotient place a b }
{
    if b == 0 {
        return Value::Invalid(Reason::ZeroDivide, place);
    }
    match a.checked_div(b) {
        Some(number) => Value::Int(number),
        None => Value::Invalid(Reason::Overflow, place),
    }
}

fn remainder(place: Place, a: i64, b: i64) -> Value
    ensures { result ≡ remainder place a b }
{
    if b == 0 {
        return Value::Invalid(Reason::ZeroDivide, place);
    }
    match a.checked_rem(b) {
        Some(number) => Value::Int(number),
        None => Value::Invalid(Reason::Overflow, place),
    }
}

/// An Integer with an Integer.
#[tactic(auto, unfolding(qvt_ocl_words::specs::Integers::of_integers))]
pub fn of_integers(op: Op, place: Place, a: i64, b: i64) -> Option<Value>
    ensures { result ≡ of_integers op place a b }
{
    match op {
        Op::Plus => Some(whole(place, a.checked_add(b))),
        Op::Minus => Some(whole(place, a.checked_sub(b))),
        Op::Times => Some(whole(place, a.checked_mul(b))),
        Op::Div => Some(quotient(place, a, b)),
        Op::Mod => Some(remainder(place, a, b)),
        Op::Min => Some(Value::Int(a.min(b))),
        Op::Max => Some(Value::Int(a.max(b))),
        Op::Less => Some(Value::Bool(a < b)),
        Op::LessEqual => Some(Value::Bool(a <= b)),
        Op::Greater => Some(Value::Bool(a > b)),
        Op::GreaterEqual => Some(Value::Bool(a >= b)),
        _ => None,
    }
}

fn spelled(truth: bool) -> &'static str
    ensures { result.now ≡ spelled truth }
{
    if truth { "true" } else { "false" }
}

/// A Boolean without arguments.
#[tactic(auto, unfolding(qvt_ocl_words::specs::Integers::of_boolean))]
pub fn of_boolean(alloc: Global, op: Op, truth: bool) -> Result<Option<Value>, ListFault>
    ensures { IfOk result (λ answer. answer ≡ of_boolean op truth) }
{
    match op {
        Op::ToString => Ok(Some(Value::Str(Text::from_str(alloc, spelled(truth))?))),
        _ => Ok(None),
    }
}

fn decimal(alloc: Global, a: i64) -> Result<Text, ListFault>
    ensures { IfOk result (λ text. text ≡ signed_decimal a) }
{
    match a.to_string(alloc) {
        Ok(text) => Ok(Text::from_string(text)),
        Err(_) => Err(ListFault::NoMemory),
    }
}

/// An Integer without arguments.
#[tactic(auto, unfolding(qvt_ocl_words::specs::Integers::of_integer))]
pub fn of_integer(alloc: Global, op: Op, place: Place, a: i64) -> Result<Option<Value>, ListFault>
    ensures { IfOk result (λ answer. answer ≡ of_integer op place a) }
{
    match op {
        Op::Negate => Ok(Some(whole(place, a.checked_neg()))),
        Op::Abs => Ok(Some(absolute(place, a))),
        Op::ToString => Ok(Some(Value::Str(decimal(alloc, a)?))),
        _ => Ok(None),
    }
}
