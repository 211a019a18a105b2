//! Operations on Strings (OCL 2.4, 11.5.3).

ghost use Rattle.std.specs.Prelude.{◌≡◌, ◌++◌, IfOk, map, encode_utf8};
ghost use Rattle.std.specs.Str.{chars};
ghost use Rattle.qvt_value.specs.Order.{text_order};
ghost use Rattle.qvt_value.specs.declared.value.Value.{Str};
ghost use Rattle.qvt_ocl_words.specs.Strings.{of_string, of_string_at, of_string_span, of_strings};

use crate::texts;
use qvt_base::list_fault::ListFault;
use qvt_base::names::{count_chars, split_first_char};
use qvt_base::numbers::Place;
use qvt_base::seq::Seq;
use qvt_base::text::Text;
use qvt_ocl_words::numbers::number;
use qvt_ocl_words::op::Op;
use qvt_value::value::{Kind, Value, Values};
use std::alloc::Global;
use std::cmp::Ordering;

fn one_char(alloc: Global, c: char) -> Result<Value, ListFault>
    ensures { IfOk result (λ value. value ≡ Str (encode_utf8 c)) }
{
    let mut text = Text::new(alloc);
    text.push(c)?;
    Ok(Value::Str(text))
}

/// The characters of the text, as Strings.
fn characters(alloc: Global, whole: &str) -> Result<Values, ListFault>
    ensures { IfOk result (λ items. items ≡ map (λ c. Str (encode_utf8 c)) (chars whole.now)) }
{
    let mut items = Seq::new(alloc);
    let mut rest = whole;
    while let Some((c, more)) = split_first_char(rest) {
        items.push(one_char(alloc, c)?)?;
        rest = more;
    }
    Ok(items)
}

/// A String without arguments.
#[tactic(auto, unfolding(qvt_ocl_words::specs::Strings::of_string))]
pub fn of_string(alloc: Global, op: Op, place: Place, s: &str) -> Result<Option<Value>, ListFault>
    ensures { IfOk result (λ answer. answer ≡ of_string op place s.now) }
{
    match op {
        Op::Size => Ok(Some(number(place, count_chars(s)))),
        Op::Characters => Ok(Some(Value::Coll(Kind::Sequence, characters(alloc, s)?))),
        Op::ToUpper => Ok(Some(Value::Str(texts::upper(alloc, s)?))),
        Op::ToLower => Ok(Some(Value::Str(texts::lower(alloc, s)?))),
        Op::FirstToUpper => Ok(Some(Value::Str(texts::first_upper(alloc, s)?))),
        Op::FirstToLower => Ok(Some(Value::Str(texts::first_lower(alloc, s)?))),
        Op::ToInteger => Ok(Some(texts::integer_in(place, s))),
        _ => Ok(None),
    }
}

/// A String with an Integer.
#[tactic(auto, unfolding(qvt_ocl_words::specs::Strings::of_string_at))]
pub fn of_string_at(
    alloc: Global,
    op: Op,
    place: Place,
    s: &str,
    i: i64,
) -> Result<Option<Value>, ListFault>
    ensures { IfOk result (λ answer. answer ≡ of_string_at op place s.now i) }
{
    match op {
        Op::At => Ok(Some(texts::substring(alloc, place, s, i, i)?)),
        _ => Ok(None),
    }
}

/// A String with two Integers.
#[tactic(auto, unfolding(qvt_ocl_words::specs::Strings::of_string_span))]
pub fn of_string_span(
    alloc: Global,
    op: Op,
    place: Place,
    s: &str,
    l: i64,
    u: i64,
) -> Result<Option<Value>, ListFault>
    ensures { IfOk result (λ answer. answer ≡ of_string_span op place s.now l u) }
{
    match op {
        Op::Substring => Ok(Some(texts::substring(alloc, place, s, l, u)?)),
        _ => Ok(None),
    }
}

fn joined(alloc: Global, s: &str, t: &str) -> Result<Text, ListFault>
    ensures { IfOk result (λ joined. joined ≡ s.now ++ t.now) }
{
    let mut joined = Text::from_str(alloc, s)?;
    joined.push_str(t)?;
    Ok(joined)
}

fn order(s: &str, t: &str) -> Ordering
    ensures { result ≡ text_order s.now t.now }
{
    s.cmp(t)
}

/// A String with a String.
#[tactic(auto, unfolding(qvt_ocl_words::specs::Strings::of_strings))]
pub fn of_strings(
    alloc: Global,
    op: Op,
    place: Place,
    s: &str,
    t: &str,
) -> Result<Option<Value>, ListFault>
    ensures { IfOk result (λ answer. answer ≡ of_strings op place s.now t.now) }
{
    match op {
        Op::Plus => Ok(Some(Value::Str(joined(alloc, s, t)?))),
        Op::Concat => Ok(Some(Value::Str(joined(alloc, s, t)?))),
        Op::IndexOf => Ok(Some(texts::index_in(place, t, s))),
        Op::StartsWith => Ok(Some(Value::Bool(texts::begins_with(s, t)))),
        Op::EndsWith => Ok(Some(Value::Bool(texts::closes_with(s, t)))),
        Op::Less => Ok(Some(Value::Bool(order(s, t).is_lt()))),
        Op::LessEqual => Ok(Some(Value::Bool(!order(t, s).is_lt()))),
        Op::Greater => Ok(Some(Value::Bool(order(t, s).is_lt()))),
        Op::GreaterEqual => Ok(Some(Value::Bool(!order(s, t).is_lt()))),
        _ => Ok(None),
    }
}
