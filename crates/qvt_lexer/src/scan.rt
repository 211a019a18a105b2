ghost use Rattle.std.specs.Prelude.{◌≡◌, ◌∷◌, false, MatchOption, IfSome};
ghost use Rattle.std.specs.Str.{chars, IsUtf8};
ghost use Rattle.qvt_lexer.specs.Characters as class;
ghost use Rattle.qvt_lexer.specs.Literals as literal;
ghost use Rattle.qvt_lexer.specs.Scan as reader;
ghost use Rattle.qvt_lexer.specs.Scanned.{GivesScan, StaysInText};
ghost use Rattle.qvt_lexer.specs.Ends.{IsEndOf};

use crate::chars::{
    CharacterClass, before, is_blank, is_block_comment, is_digit, is_line_comment, is_quote,
    is_start, skip, split_char,
};
use crate::literals::{after_close, content_end, is_within};
use crate::token::{LexKind, TokenKind};
use qvt_words::words::{is_double_sign, is_reserved, is_single_sign};

/// What stands at the front of a text.
#[derive(Clone, Copy, Debug, PartialEq, Eq)]
pub enum Piece {
    Blank,
    Comment,
    Token(TokenKind),
}

/// The piece at the front of a text with the text after it, or the fault with the text from its
/// place on.
#[derive(Clone, Copy)]
pub enum Scan<'a> {
    Found(Piece, &'a str),
    Fault(LexKind, &'a str),
}

/// A name or a word that begins with c.
fn scan_word<'a>(text: &'a str, c: char, more: &'a str) -> Scan<'a>
    requires first { chars text.now ≡ c ∷ chars more.now }
    requires end { IsEndOf text.now more.now }
    ensures gives { GivesScan result (reader.word_at c (chars more.now)) }
    ensures end { StaysInText text.entry.now result }
{
    let rest = skip(CharacterClass::Continue, more);
    let word = before(text, rest);
    if is_reserved(word) {
        Scan::Found(Piece::Token(TokenKind::Word), rest)
    } else {
        Scan::Found(Piece::Token(TokenKind::Name), rest)
    }
}

/// The end of an escaped name.
fn scan_closed<'a>(text: &'a str, rest: &'a str) -> Scan<'a>
    requires { IsEndOf text.now rest.now }
    ensures gives { GivesScan result (reader.closed_at (chars text.now) (chars rest.now)) }
    ensures end { StaysInText text.entry.now result }
{
    match split_char(rest) {
        Some(('\'', end)) => Scan::Found(Piece::Token(TokenKind::Name), end),
        _ => Scan::Fault(LexKind::BadEscape, text),
    }
}

/// An escaped name, of which `more` comes after `_'`.
fn scan_escaped<'a>(text: &'a str, more: &'a str) -> Scan<'a>
    requires { IsEndOf text.now more.now }
    ensures gives { GivesScan result (reader.escaped_at (chars text.now) (chars more.now)) }
    ensures end { StaysInText text.entry.now result }
{
    let Some((c, after)) = split_char(more) else {
        return Scan::Fault(LexKind::BadEscape, text);
    };
    if !is_start(c) {
        return Scan::Fault(LexKind::BadEscape, text);
    }
    let rest = skip(CharacterClass::Continue, after);
    scan_closed(text, rest)
}

fn scan_number<'a>(text: &'a str) -> Scan<'a>
    ensures gives { GivesScan result (reader.number_at (chars text.now)) }
    ensures end { StaysInText text.entry.now result }
{
    let rest = skip(CharacterClass::Digit, text);
    let digits = before(text, rest);
    if is_within(digits) {
        Scan::Found(Piece::Token(TokenKind::Integer), rest)
    } else {
        Scan::Fault(LexKind::NumberTooLarge, text)
    }
}

/// A string that begins with this quote.
fn scan_string<'a>(text: &'a str, quote: char, more: &'a str) -> Scan<'a>
    requires first { chars text.now ≡ quote ∷ chars more.now }
    requires end { IsEndOf text.now more.now }
    ensures gives { GivesScan result (reader.string_at quote (chars more.now)) }
    ensures end { StaysInText text.entry.now result }
{
    let end = content_end(quote, more);
    match split_char(end) {
        None => Scan::Fault(LexKind::OpenText, text),
        Some((c, rest)) => {
            if c == quote {
                Scan::Found(Piece::Token(TokenKind::Str), rest)
            } else if c == '\\' {
                Scan::Fault(LexKind::BadEscape, end)
            } else {
                Scan::Fault(LexKind::OpenText, text)
            }
        }
    }
}

/// A symbol of one character.
fn scan_single<'a>(text: &'a str, c: char, more: &'a str) -> Scan<'a>
    requires first { chars text.now ≡ c ∷ chars more.now }
    requires end { IsEndOf text.now more.now }
    ensures gives { GivesScan result (reader.single_at c (chars more.now)) }
    ensures end { StaysInText text.entry.now result }
{
    if is_single_sign(c) {
        Scan::Found(Piece::Token(TokenKind::Symbol), more)
    } else {
        Scan::Fault(LexKind::BadChar, text)
    }
}

/// A comment that is opened by `/*`, after which `more` comes.
fn scan_block<'a>(text: &'a str, more: &'a str) -> Scan<'a>
    requires { IsEndOf text.now more.now }
    ensures gives { GivesScan result (reader.block_at (chars text.now) (literal.after_close (chars more.now))) }
    ensures end { StaysInText text.entry.now result }
{
    match after_close(more) {
        Some(rest) => Scan::Found(Piece::Comment, rest),
        None => Scan::Fault(LexKind::OpenComment, text),
    }
}

/// A symbol or a comment that begins with c.
fn scan_mark<'a>(text: &'a str, c: char, more: &'a str) -> Scan<'a>
    requires first { chars text.now ≡ c ∷ chars more.now }
    requires end { IsEndOf text.now more.now }
    ensures gives { GivesScan result (reader.mark_at c (chars more.now)) }
    ensures end { StaysInText text.entry.now result }
{
    let Some((d, after)) = split_char(more) else {
        return scan_single(text, c, more);
    };
    if is_double_sign(c, d) {
        return Scan::Found(Piece::Token(TokenKind::Symbol), after);
    }
    if is_line_comment(c, d) {
        return Scan::Found(Piece::Comment, skip(CharacterClass::Line, after));
    }
    if is_block_comment(c, d) {
        return scan_block(text, after);
    }
    scan_single(text, c, more)
}

/// The text after an apostrophe.
fn after_apostrophe<'a>(text: &'a str) -> Option<&'a str>
    ensures value { MatchOption result (literal.begins reader.is_apostrophe (chars text.now) ≡ false) (λ x. chars text.now ≡ 39 ∷ chars x.now) }
    ensures text { IfSome result (λ x. IsUtf8 x.now) }
    ensures end { IfSome result (λ x. IsEndOf text.now x.now) }
{
    let (c, rest) = split_char(text)?;
    if c == '\'' { Some(rest) } else { None }
}

/// The piece at the front of a text that begins with c, after which `more` comes.
#[tactic(auto, unfolding(crate::specs::Scan::scan_at))]
pub fn scan_piece<'a>(text: &'a str, c: char, more: &'a str) -> Scan<'a>
    requires first { chars text.now ≡ c ∷ chars more.now }
    requires end { IsEndOf text.now more.now }
    ensures gives { GivesScan result (reader.scan_at c (chars more.now)) }
    ensures end { StaysInText text.entry.now result }
{
    if is_blank(c) {
        return Scan::Found(Piece::Blank, more);
    }
    if c == '_' {
        if let Some(after) = after_apostrophe(more) {
            return scan_escaped(text, after);
        }
    }
    if is_start(c) {
        scan_word(text, c, more)
    } else if is_digit(c) {
        scan_number(text)
    } else if is_quote(c) {
        scan_string(text, c, more)
    } else {
        scan_mark(text, c, more)
    }
}
