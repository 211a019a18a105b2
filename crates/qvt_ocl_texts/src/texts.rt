//! Words on texts.

ghost use Rattle.std.specs.Prelude.{◌≡◌, ◌==◌, ◌++◌, ◌-◌, pos, IfOk, Some, None, if◌then◌else◌, nat_lt, length, take, drop, map, slice_index, slice_range, option_map, IfSome, IsUtf8, encode_utf8, eqb};
ghost use Rattle.std.specs.List.{starts_with, ends_with};
ghost use Rattle.std.specs.Str.{chars, encode_utf8_all};
ghost use Rattle.std.specs.Char.{to_ascii_uppercase, to_ascii_lowercase};
ghost use Rattle.qvt_ocl_words.specs.Integers.{whole};
ghost use Rattle.qvt_ocl_words.specs.Strings.{is_span, natural, substring, first_by, index_in, integer_in};

use qvt_base::list_fault::ListFault;
use qvt_base::names::{count_chars, split_first_char};
use qvt_base::numbers::Place;
use qvt_base::text::Text;
use qvt_ocl_words::numbers::following;
use qvt_value::value::{Reason, Value};
use std::alloc::Global;

/// The text behind its first `n` characters, or none of fewer.
#[tactic(auto, using(crate::proofs::Chars::drop_past, crate::proofs::Chars::fewer_left, crate::proofs::Chars::behind_short, crate::proofs::Chars::behind_all))]
fn after_chars(text: &str, n: usize) -> Option<&str>
    ensures value { option_map (λ rest. chars rest.now) result ≡ (if nat_lt (length (chars text.now)) n then None else Some (drop n (chars text.now))) }
    ensures text { IfSome result (λ rest. IsUtf8 rest.now) }
{
    let mut rest = text;
    let mut left = n;
    while left > 0 {
        let (_, more) = split_first_char(rest)?;
        rest = more;
        left -= 1;
    }
    Some(rest)
}

/// The first `n` characters of the text, or none of fewer. No character is looked at behind them.
fn first_chars(text: &str, n: usize) -> Option<&str>
    ensures { option_map (λ front. front.now) result ≡ (if nat_lt (length (chars text.now)) n then None else Some (encode_utf8_all (take n (chars text.now)))) }
{
    let rest = after_chars(text, n)?;
    let (front, _) = text.split_at(text.len() - rest.len());
    Some(front)
}

/// Whether 1 <= l <= u <= n.
pub fn is_span(l: i64, u: i64, n: usize) -> bool
    ensures { result ≡ is_span l u n }
{
    1 <= l && l <= u && natural(u) <= n
}

/// The number, or 0 below it.
pub fn natural(i: i64) -> usize
    ensures { result ≡ natural i }
{
    if i < 0 { 0 } else { i as usize }
}

/// The characters from the l-th to the u-th, where they are there.
fn span(text: &str, l: i64, u: i64) -> Option<&str>
    ensures { option_map (λ part. part.now) result ≡ (if is_span l u (length (chars text.now)) then Some (encode_utf8_all (slice_range (chars text.now) (natural l - 1) (natural u))) else None) }
{
    if l < 1 || u < l {
        return None;
    }
    let before = natural(l) - 1;
    first_chars(after_chars(text, before)?, natural(u) - before)
}

/// The characters from the l-th to the u-th. No character is looked at behind them.
pub fn substring(
    alloc: Global,
    place: Place,
    text: &str,
    l: i64,
    u: i64,
) -> Result<Value, ListFault>
    ensures { IfOk result (λ answer. answer ≡ substring place text.now l u) }
{
    match span(text, l, u) {
        Some(part) => Ok(Value::Str(Text::from_str(alloc, part)?)),
        None => Ok(Value::Invalid(Reason::BadIndex, place)),
    }
}

/// The text with its ASCII letters in upper case.
pub fn upper(alloc: Global, text: &str) -> Result<Text, ListFault>
    ensures { IfOk result (λ upper. upper ≡ map to_ascii_uppercase text.now) }
{
    match String::from_str(alloc, text) {
        Ok(mut copy) => {
            copy.make_ascii_uppercase();
            Ok(Text::from_string(copy))
        }
        Err(_) => Err(ListFault::NoMemory),
    }
}

/// The text with its ASCII letters in lower case.
pub fn lower(alloc: Global, text: &str) -> Result<Text, ListFault>
    ensures { IfOk result (λ lower. lower ≡ map to_ascii_lowercase text.now) }
{
    match String::from_str(alloc, text) {
        Ok(mut copy) => {
            copy.make_ascii_lowercase();
            Ok(Text::from_string(copy))
        }
        Err(_) => Err(ListFault::NoMemory),
    }
}

/// The character, and then the text.
fn with_first(alloc: Global, first: char, rest: &str) -> Result<Text, ListFault>
    ensures { IfOk result (λ text. text ≡ encode_utf8 first ++ rest.now) }
{
    let mut text = Text::new(alloc);
    text.push(first)?;
    text.push_str(rest)?;
    Ok(text)
}

/// The text with its first letter in upper case.
#[tactic(auto, using(crate::proofs::Chars::with_first, crate::proofs::Chars::without_first))]
pub fn first_upper(alloc: Global, text: &str) -> Result<Text, ListFault>
    ensures { IfOk result (λ upper. upper ≡ encode_utf8_all (first_by to_ascii_uppercase (chars text.now))) }
{
    match split_first_char(text) {
        Some((first, rest)) => {
            let text = with_first(alloc, first.to_ascii_uppercase(), rest)?;
            Ok(text)
        }
        None => Ok(Text::new(alloc)),
    }
}

/// The text with its first letter in lower case.
#[tactic(auto, using(crate::proofs::Chars::with_first, crate::proofs::Chars::without_first))]
pub fn first_lower(alloc: Global, text: &str) -> Result<Text, ListFault>
    ensures { IfOk result (λ lower. lower ≡ encode_utf8_all (first_by to_ascii_lowercase (chars text.now))) }
{
    match split_first_char(text) {
        Some((first, rest)) => {
            let text = with_first(alloc, first.to_ascii_lowercase(), rest)?;
            Ok(text)
        }
        None => Ok(Text::new(alloc)),
    }
}

/// Whether the text begins with the other.
pub fn begins_with(text: &str, front: &str) -> bool
    ensures { result ≡ starts_with eqb text.now front.now }
{
    text.starts_with(front)
}

/// Whether the text ends with the other.
pub fn closes_with(text: &str, end: &str) -> bool
    ensures { result ≡ ends_with eqb text.now end.now }
{
    text.ends_with(end)
}

/// The index of the character at which the other text first stands, from 1, or 0.
pub fn index_in(place: Place, part: &str, text: &str) -> Value
    ensures { result ≡ whole place (pos (index_in part.now text.now)) }
{
    if text.is_empty() {
        return Value::Int(0);
    }
    match text.find(part) {
        Some(i) => following(place, count_chars(&text[..i])),
        None => Value::Int(0),
    }
}

fn begins_with_plus(text: &str) -> bool
    ensures { result ≡ (slice_index text.now 0 == 43) }
{
    let bytes = text.as_bytes();
    !bytes.is_empty() && bytes[0] == b'+'
}

/// The Integer that the text writes.
pub fn integer_in(place: Place, text: &str) -> Value
    ensures { result ≡ integer_in place text.now }
{
    if begins_with_plus(text) {
        return Value::Invalid(Reason::BadNumber, place);
    }
    match text.parse::<i64>() {
        Ok(number) => Value::Int(number),
        Err(_) => Value::Invalid(Reason::BadNumber, place),
    }
}
