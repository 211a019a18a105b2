ghost use Rattle.std.specs.Prelude.{◌≡◌, ℕ, suc, [], ◌+◌, ◌*◌, ◌<◌, true, nat_le, length, Option, Some, None, MatchOption, IfSome};
ghost use Rattle.std.specs.Str.{chars, IsUtf8};
ghost use Rattle.qvt_lexer.specs.Characters as class;
ghost use Rattle.qvt_lexer.specs.Literals as literal;
ghost use Rattle.qvt_lexer.specs.Scan as scan;
ghost use Rattle.qvt_lexer.specs.Ends.{IsEndOf};

use crate::chars::{is_hex, split_char};

/// The greatest whole number, and a tenth of it.
const GREATEST: u64 = 9223372036854775807;

const TENTH: u64 = 922337203685477580;

/// Whether the decimal digits write a number that is not too large.
pub fn is_within(digits: &str) -> bool
    requires { literal.every class.is_digit (chars digits.now) ≡ true }
    ensures { result ≡ nat_le (literal.number_of (chars digits.now)) literal.greatest_number }
{
    let mut value: u64 = 0;
    let mut rest = digits;
    while let Some((c, more)) = split_char(rest) {
        if value > TENTH {
            return false;
        }
        value = 10 * value + digit_value(c);
        if value > GREATEST {
            return false;
        }
        rest = more;
    }
    true
}

fn digit_value(c: char) -> u64
    requires { class.is_digit c ≡ true }
    ensures value { result + 48 ≡ c }
    ensures small { result < 10 }
{
    c as u64 - 48
}

/// The text after `/` where c is `*`.
fn close(c: char, more: &str) -> Option<&str>
    ensures value { MatchOption result (scan.closes_at c (chars more.now) ≡ None) (λ x. scan.closes_at c (chars more.now) ≡ Some (chars x.now)) }
    ensures text { IfSome result (λ x. IsUtf8 x.now) }
    ensures end { IfSome result (λ x. IsEndOf more.now x.now) }
{
    let (d, rest) = split_char(more)?;
    if (c == '*') & (d == '/') {
        Some(rest)
    } else {
        None
    }
}

/// The text after the first `*/`.
pub fn after_close(text: &str) -> Option<&str>
    ensures value { MatchOption result (literal.after_close (chars text.now) ≡ None) (λ x. literal.after_close (chars text.now) ≡ Some (chars x.now)) }
    ensures text { IfSome result (λ x. IsUtf8 x.now) }
    ensures end { IfSome result (λ x. IsEndOf text.now x.now) }
{
    let mut rest = text;
    while let Some((c, more)) = split_char(rest) {
        if let Some(end) = close(c, more) {
            return Some(end);
        }
        rest = more;
    }
    None
}

/// A hexadecimal digit.
fn hex_digit(text: &str) -> Option<(u32, &str)>
    ensures value { MatchOption result ((n v : ℕ) → literal.hex_at (suc n) v (chars text.now) ≡ None)
        (λ x. (n v : ℕ) → literal.hex_at (suc n) v (chars text.now) ≡ literal.hex_at n (16 * v + x.0) (chars x.1.now)) }
    ensures small { IfSome result (λ x. x.0 < 16) }
    ensures text { IfSome result (λ x. IsUtf8 x.1.now) }
    ensures end { IfSome result (λ x. IsEndOf text.now x.1.now) }
{
    let (c, rest) = split_char(text)?;
    if is_hex(c) {
        Some((hex_value(c), rest))
    } else {
        None
    }
}

fn hex_value(c: char) -> u32
    requires { class.is_hex c ≡ true }
    ensures value { result ≡ class.hex_value c }
    ensures small { result < 16 }
{
    let code = c as u32;
    if c <= '9' {
        code - 48
    } else if c <= 'F' {
        code - 55
    } else {
        code - 87
    }
}

/// Two hexadecimal digits.
fn hex_pair(text: &str) -> Option<(char, &str)>
    ensures value { MatchOption result (literal.hex_at 2 0 (chars text.now) ≡ None) (λ x. literal.hex_at 2 0 (chars text.now) ≡ Some (x.0, chars x.1.now)) }
    ensures text { IfSome result (λ x. IsUtf8 x.1.now) }
    ensures end { IfSome result (λ x. IsEndOf text.now x.1.now) }
{
    let Some((a, after_a)) = hex_digit(text) else {
        return None;
    };
    let Some((b, rest)) = hex_digit(after_a) else {
        return None;
    };
    Some(((16 * a + b) as u8 as char, rest))
}

/// Four hexadecimal digits that give no surrogate.
fn hex_four(text: &str) -> Option<(char, &str)>
    ensures value { MatchOption result (literal.no_surrogate (literal.hex_at 4 0 (chars text.now)) ≡ None)
        (λ x. literal.no_surrogate (literal.hex_at 4 0 (chars text.now)) ≡ Some (x.0, chars x.1.now)) }
    ensures text { IfSome result (λ x. IsUtf8 x.1.now) }
    ensures end { IfSome result (λ x. IsEndOf text.now x.1.now) }
{
    let Some((a, after_a)) = hex_digit(text) else {
        return None;
    };
    let Some((b, after_b)) = hex_digit(after_a) else {
        return None;
    };
    let Some((c, after_c)) = hex_digit(after_b) else {
        return None;
    };
    let Some((d, rest)) = hex_digit(after_c) else {
        return None;
    };
    match char::from_u32(16 * (16 * (16 * a + b) + c) + d) {
        Some(value) => Some((value, rest)),
        None => None,
    }
}

fn simple_escape(c: char) -> Option<char>
    ensures { result ≡ literal.simple_escape c }
{
    match c {
        'b' => Some('\u{8}'),
        't' => Some('\t'),
        'n' => Some('\n'),
        'f' => Some('\u{c}'),
        'r' => Some('\r'),
        '"' | '\'' | '\\' => Some(c),
        _ => None,
    }
}

/// The character that an escape stands for, and the text after it. The text begins after the
/// backslash.

fn escape(text: &str) -> Option<(char, &str)>
    ensures value { MatchOption result (literal.escape_at (chars text.now) ≡ None) (λ x. literal.escape_at (chars text.now) ≡ Some (x.0, chars x.1.now)) }
    ensures text { IfSome result (λ x. IsUtf8 x.1.now) }
    ensures end { IfSome result (λ x. IsEndOf text.now x.1.now) }
{
    let (c, more) = split_char(text)?;
    if c == 'x' {
        return hex_pair(more);
    }
    if c == 'u' {
        return hex_four(more);
    }
    let value = simple_escape(c)?;
    Some((value, more))
}

/// A character of a string that opened with this quote, escaped or not, and the text after it.
/// There is none at a quote of that kind, at a line feed, at a backslash that begins no escape, and
/// at the end.

pub fn item(quote: char, text: &str) -> Option<(char, &str)>
    ensures value { MatchOption result (literal.item_at quote (chars text.now) ≡ None) (λ x. literal.item_at quote (chars text.now) ≡ Some (x.0, chars x.1.now)) }
    ensures text { IfSome result (λ x. IsUtf8 x.1.now) }
    ensures shorter { IfSome result (λ x. length x.1.now < length text.now) }
    ensures end { IfSome result (λ x. IsEndOf text.now x.1.now) }
{
    let (c, more) = split_char(text)?;
    if (c == quote) | (c == '\n') {
        return None;
    }
    if c == '\\' {
        return escape(more);
    }
    Some((c, more))
}

/// The text after all characters of a string.
pub fn content_end(quote: char, text: &str) -> &str
    ensures characters { chars result.now ≡ scan.content_end quote (chars text.now) }
    ensures end { IsEndOf text.now result.now }
{
    let mut rest = text;
    while let Some((_, more)) = item(quote, rest) {
        rest = more;
    }
    rest
}
