//! Texts with their tokens, or with the place of their first fault.

use TokenKind::{End, Integer, Name, Str, Symbol, Word};
use qvt_lexer::lexer::Lexer;
use qvt_lexer::token::{LexFault, LexKind, Token, TokenKind};

const SMALL: usize = 1000;

/// A token that is expected: its kind, its line, its column, its offset and its text.
type Expected = (TokenKind, u32, u32, u32, &'static str);

/// A fault that is expected: its kind, its line, its column and its offset.
type ExpectedFault = (LexKind, u32, u32, u32);

/// Whether the next tokens are these.
fn are_next(lexer: &mut Lexer<'_>, tokens: &[Expected]) -> bool {
    for expected in tokens {
        match lexer.next() {
            Ok(Token { kind, place, text }) => {
                if (kind, place.line, place.column, place.offset, text) != *expected {
                    return false;
                }
            }
            Err(_) => return false,
        }
    }
    true
}

/// Whether the next call gives the end, or this fault.
fn is_end(lexer: &mut Lexer<'_>, fault: &Option<ExpectedFault>) -> bool {
    match (lexer.next(), fault) {
        (Ok(token), None) => token.kind == End,
        (Err(LexFault { kind, place }), Some(expected)) => {
            (kind, place.line, place.column, place.offset) == *expected
        }
        _ => false,
    }
}

/// Whether the calls of `next` give these tokens, and then the end or this fault, each twice.
fn has_tokens(text: &str, tokens: &[Expected], fault: &Option<ExpectedFault>) -> bool {
    if text.len() > SMALL {
        return false;
    }
    let mut lexer = Lexer::new(text);
    are_next(&mut lexer, tokens) && is_end(&mut lexer, fault) && is_end(&mut lexer, fault)
}

const TEXTS: [(&str, &[Expected], Option<ExpectedFault>); 15] = [
    ("", &[(End, 1, 1, 0, "")], None),
    (
        "\u{feff}var x",
        &[
            (Word, 1, 2, 3, "var"),
            (Name, 1, 6, 7, "x"),
            (End, 1, 7, 8, ""),
        ],
        None,
    ),
    (
        "é := 1..2",
        &[
            (Name, 1, 1, 0, "é"),
            (Symbol, 1, 3, 3, ":="),
            (Integer, 1, 6, 6, "1"),
            (Symbol, 1, 7, 7, ".."),
            (Integer, 1, 9, 9, "2"),
        ],
        None,
    ),
    (
        "_'if' -- a\n// b\n/* /* */ _",
        &[(Name, 1, 1, 0, "_'if'"), (Name, 3, 10, 25, "_")],
        None,
    ),
    (
        "'a\\x41\"' \"'\\u00e9\"",
        &[
            (Str, 1, 1, 0, "'a\\x41\"'"),
            (Str, 1, 10, 9, "\"'\\u00e9\""),
        ],
        None,
    ),
    (
        "a->b<>c",
        &[
            (Name, 1, 1, 0, "a"),
            (Symbol, 1, 2, 1, "->"),
            (Name, 1, 4, 3, "b"),
            (Symbol, 1, 5, 4, "<>"),
            (Name, 1, 7, 6, "c"),
        ],
        None,
    ),
    (
        "9223372036854775807",
        &[(Integer, 1, 1, 0, "9223372036854775807")],
        None,
    ),
    (
        "a\n  #",
        &[(Name, 1, 1, 0, "a")],
        Some((LexKind::BadChar, 2, 3, 4)),
    ),
    (
        "= 9223372036854775808",
        &[(Symbol, 1, 1, 0, "=")],
        Some((LexKind::NumberTooLarge, 1, 3, 2)),
    ),
    (" 'a\n'", &[], Some((LexKind::OpenText, 1, 2, 1))),
    ("'a\\q", &[], Some((LexKind::BadEscape, 1, 3, 2))),
    ("'a\\ud800'", &[], Some((LexKind::BadEscape, 1, 3, 2))),
    ("_'9'", &[], Some((LexKind::BadEscape, 1, 1, 0))),
    ("/* /", &[], Some((LexKind::OpenComment, 1, 1, 0))),
    (
        "a \u{feff}",
        &[(Name, 1, 1, 0, "a")],
        Some((LexKind::BadChar, 1, 3, 2)),
    ),
];

#[test]
fn texts_have_these_tokens_or_faults(rt: HostRuntime) {
    for (text, tokens, fault) in &TEXTS {
        assert!(rt; has_tokens(text, tokens, fault), "{text:?}");
    }
}
