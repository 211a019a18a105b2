ghost use Rattle.std.specs.Prelude.{◌≡◌, ◌+◌, ◌<◌, ◌≤◌, ◌^◌, length, drop, slice_range, IfOk, IfErr, OnErr};
ghost use Rattle.qvt_lexer.specs.Unique.{OneDivision, OneFault};

use crate::chars::split_char;
use crate::cursor::{Cursor, next_token};
use crate::token::{LexFault, Token};
use qvt_base::numbers::Place;
use std::marker::Model;

/// Reads the tokens of a text from left to right.
#[derive(Debug, Drop)]
pub struct Lexer<'a> {
    source: &'a str,
    rest: &'a str,
    place: Place,
}

impl<'a> Model for Lexer<'a> {
    ghost use Rattle.qvt_lexer.specs.State.{LexerState, seen, IsInText};

    ghost Value = { LexerState };

    ghost view = { seen };

    ghost invariant = { IsInText };
}

impl<'a> Lexer<'a> {
    ghost use Rattle.qvt_lexer.specs.State.{start, standing_at};
    ghost use Rattle.qvt_lexer.specs.Rooms.{HasPlaceRoom};
    ghost use Rattle.qvt_lexer.specs.Division as division;

    /// A lexer at the front of a text. A U+FEFF there is a blank. The text has fewer than 2^32 - 1
    /// bytes, so that the number of each line and column fits 32 bits.
    pub fn new(text: &'a str) -> Lexer<'a>
        requires { length text.now + 1 < 2 ^ 32 }
        ensures { result ≡ start text.entry.now }
    {
        match split_char(text) {
            Some(('\u{feff}', rest)) => Lexer::standing(
                text,
                rest,
                Place {
                    line: 1,
                    column: 2,
                    offset: 3,
                },
            ),
            _ => Lexer::standing(
                text,
                text,
                Place {
                    line: 1,
                    column: 1,
                    offset: 0,
                },
            ),
        }
    }

    /// A lexer at a place of a text, with what is left from there.
    fn standing(source: &'a str, rest: &'a str, place: Place) -> Lexer<'a>
        requires left { drop place.offset source.now ≡ rest.now }
        requires offset { place.offset + length rest.now ≡ length source.now }
        requires room { HasPlaceRoom place rest.now }
        ensures { result ≡ standing_at source.entry.now place rest.entry.now }
    {
        Lexer {
            source,
            rest,
            place,
        }
    }

    /// The next token, or at the end again and again the kind `End` with the end's place. After a
    /// fault the lexer stays where it is, and gives the fault again.
    pub fn next(&mut self) -> Result<Token<'a>, LexFault>
        ensures read { IfOk result (λ t. division.IsNextToken self.old.at t self.new.at) }
        ensures fault { IfErr result (division.IsFaulty self.old.at) }
        ensures stays { OnErr result (self.new ≡ self.old) }
        ensures source { self.new.source ≡ self.old.source }

        // The token's text is the slice of the source at its place, and the tokens stand in order.
        ensures slice { IfOk result (λ t. slice_range self.old.source t.place.offset (t.place.offset + length t.text.now) ≡ t.text.now) }
        ensures order { IfOk result (λ t. (self.old.at.place.offset ≤ t.place.offset) × (t.place.offset + length t.text.now ≡ self.new.at.place.offset)) }
    {
        let start = Cursor {
            rest: self.rest,
            place: self.place,
        };
        match next_token(start) {
            Ok((token, after)) => {
                self.rest = after.rest;
                self.place = after.place;
                Ok(token)
            }
            Err(fault) => Err(fault),
        }
    }
}

/// Its clauses are the law that a text has one division and one fault, so that the tokens and the
/// fault that `next` gives are those of the text. It does nothing.
pub fn one_division()
    ensures division { OneDivision }
    ensures fault { OneFault }
{}
