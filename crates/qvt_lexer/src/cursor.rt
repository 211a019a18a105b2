ghost use Rattle.std.specs.Prelude.{◌≡◌, ℕ, List, ◌++◌, ◌+◌, ◌<◌, ◌≤◌, ◌^◌, length, IfOk, IfErr};
ghost use Rattle.std.specs.Char.{len_utf8};
ghost use Rattle.std.specs.Str.{chars};
ghost use Rattle.qvt_lexer.specs.Division as division;
ghost use Rattle.qvt_lexer.specs.Cursors.{position_of, Spans};
ghost use Rattle.qvt_lexer.specs.Rooms.{HasPlaceRoom};
ghost use Rattle.qvt_lexer.specs.Ends.{IsEndOf};

use crate::chars::{before, split_char};
use crate::scan::{Piece, Scan, scan_piece};
use crate::token::{LexFault, Token, TokenKind};
use qvt_base::numbers::Place;

/// A place in the source with the text that is left.
#[derive(Clone, Copy)]
pub struct Cursor<'a> {
    pub rest: &'a str,
    pub place: Place,
}

/// The place after one character.
fn next_place(at: Place, c: char) -> Place
    requires line { at.line ≤ at.offset + 1 }
    requires column { at.column ≤ at.offset + 1 }
    requires room { at.offset + len_utf8 c + 1 < 2 ^ 32 }
    ensures value { result ≡ division.moved at c }
    ensures offset { result.offset ≡ at.offset + len_utf8 c }
    ensures line { result.line ≤ result.offset + 1 }
    ensures column { result.column ≤ result.offset + 1 }
{
    let offset = at.offset + c.len_utf8() as u32;
    if c == '\n' {
        Place {
            line: at.line + 1,
            column: 1,
            offset,
        }
    } else {
        Place {
            line: at.line,
            column: at.column + 1,
            offset,
        }
    }
}

/// The place after a text.
fn place_after(at: Place, text: &str) -> Place
    requires { HasPlaceRoom at text.now }
    ensures value { result ≡ division.place_after at (chars text.now) }
    ensures offset { result.offset ≡ at.offset + length text.now }
    ensures line { result.line ≤ result.offset + 1 }
    ensures column { result.column ≤ result.offset + 1 }
{
    let mut place = at;
    let mut rest = text;
    while let Some((c, more)) = split_char(rest) {
        place = next_place(place, c);
        rest = more;
    }
    place
}

/// The cursor at an end of the text that is left.
fn advance<'a>(at: Cursor<'a>, rest: &'a str) -> Cursor<'a>
    requires end { IsEndOf at.rest.now rest.now }
    requires room { HasPlaceRoom at.place at.rest.now }
    ensures rest { result.rest.now ≡ rest.entry.now }
    ensures place { (u : List ℕ) → chars at.entry.rest.now ≡ u ++ chars rest.entry.now → result.place ≡ division.place_after at.entry.place u }
    ensures offset { result.place.offset + length rest.entry.now ≡ at.entry.place.offset + length at.entry.rest.now }
    ensures room { HasPlaceRoom result.place rest.entry.now }
{
    let passed = before(at.rest, rest);
    Cursor {
        rest,
        place: place_after(at.place, passed),
    }
}

/// The next token from a cursor on and the cursor after it, or the fault at the first place where no
/// piece begins.
pub fn next_token<'a>(start: Cursor<'a>) -> Result<(Token<'a>, Cursor<'a>), LexFault>
    requires { HasPlaceRoom start.place start.rest.now }
    ensures read { IfOk result (λ x. division.IsNextToken (position_of start.entry) x.0 (position_of x.1)) }
    ensures fault { IfErr result (division.IsFaulty (position_of start.entry)) }
    ensures spans { IfOk result (λ x. Spans start.entry x.0 x.1) }
    ensures room { IfOk result (λ x. HasPlaceRoom x.1.place x.1.rest.now) }
{
    let mut at = start;
    while let Some((c, more)) = split_char(at.rest) {
        match scan_piece(at.rest, c, more) {
            Scan::Found(Piece::Token(kind), rest) => {
                let text = before(at.rest, rest);
                let token = Token {
                    kind,
                    place: at.place,
                    text,
                };
                return Ok((token, advance(at, rest)));
            }
            Scan::Found(Piece::Blank, rest) => {
                at = advance(at, rest);
            }
            Scan::Found(Piece::Comment, rest) => {
                at = advance(at, rest);
            }
            Scan::Fault(kind, rest) => {
                let found = advance(at, rest);
                return Err(LexFault {
                    kind,
                    place: found.place,
                });
            }
        }
    }
    let token = Token {
        kind: TokenKind::End,
        place: at.place,
        text: at.rest,
    };
    Ok((token, at))
}
