ghost use Rattle.std.specs.Prelude.{◌≡◌, ◌<◌, ◌≤◌, [], length, OnOk};
ghost use Rattle.qvt_grammar.specs.Language.{head_of};
ghost use Rattle.qvt_grammar.specs.Reader.{starts, maybe_at};
ghost use Rattle.qvt_language.specs.Tokens.{is, tok_of, place_of, is_nil};
ghost use Rattle.qvt_language.specs.Readers.{nowhere, the_at};
ghost use Rattle.qvt_parser_grammar.specs.Options.{option_view};
ghost use Rattle.qvt_parser_grammar.specs.Gives.{Gives, toks};

use qvt_base::list_fault::ListFault;
use qvt_base::numbers::Place;
use qvt_language::class::Class;
use qvt_language::token::SyntaxToken;
use std::alloc::{AllocError, AllocFailed, Global};

/// Why no tree is given.
#[derive(Drop)]
pub enum ParseError {
    NoMemory,
    /// The parser stands at the faulty token.
    Syntax,
}

impl From<ListFault> for ParseError {
    ghost use Rattle.std.specs.Prelude.{◌≡◌};
    ghost use Rattle.qvt_parser_grammar.specs.declared.cursor.ParseError.TheVariants.{NoMemory};

    ghost from_gives = { λ _ e. e ≡ NoMemory };

    fn from(_: ListFault) -> ParseError {
        ParseError::NoMemory
    }
}

impl From<AllocError> for ParseError {
    ghost use Rattle.std.specs.Prelude.{◌≡◌};
    ghost use Rattle.qvt_parser_grammar.specs.declared.cursor.ParseError.TheVariants.{NoMemory};

    ghost from_gives = { λ _ e. e ≡ NoMemory };

    fn from(_: AllocError) -> ParseError {
        ParseError::NoMemory
    }
}

impl<T: Drop> From<AllocFailed<T>> for ParseError {
    ghost use Rattle.std.specs.Prelude.{◌≡◌};
    ghost use Rattle.qvt_parser_grammar.specs.declared.cursor.ParseError.TheVariants.{NoMemory};

    ghost from_gives = { λ _ e. e ≡ NoMemory };

    fn from(_: AllocFailed<T>) -> ParseError {
        ParseError::NoMemory
    }
}

/// The tokens that are left to read: those from the index on.
#[derive(Drop)]
pub struct Parser<'a> {
    pub alloc: Global,
    tokens: &'a [SyntaxToken<'a>],
    index: usize,
}

const NOWHERE: Place = Place {
    line: 0,
    column: 0,
    offset: 0,
};

impl<'a> Parser<'a> {
    ghost use Rattle.qvt_language.specs.Tokens.{toks_of};

    /// A parser at the first of the tokens.
    pub fn new(alloc: Global, tokens: &'a [SyntaxToken<'a>]) -> Parser<'a>
        ensures { toks result ≡ toks_of tokens.entry.now }
    {
        Parser {
            alloc,
            tokens,
            index: 0,
        }
    }

    /// Whether the next token is of the class.
    pub fn at(&self, class: Class) -> bool
        ensures { result ≡ starts (is class) (toks self.now) }
    {
        if self.index < self.tokens.len() {
            self.tokens[self.index].class as u8 == class as u8
        } else {
            false
        }
    }

    /// The place of the next token.
    pub fn place(&self) -> Place
        ensures { result ≡ head_of (λ t. t.place) nowhere (toks self.now) }
    {
        if self.index < self.tokens.len() {
            self.tokens[self.index].place
        } else {
            NOWHERE
        }
    }

    /// The text of the next token.
    pub fn text(&self) -> &'a str
        ensures { result.now ≡ head_of (λ t. t.text) [] (toks self.now) }
    {
        if self.index < self.tokens.len() {
            self.tokens[self.index].text
        } else {
            ""
        }
    }

    /// Whether no token is left.
    pub fn is_empty(&self) -> bool
        ensures { result ≡ is_nil (toks self.now) }
    {
        if self.index < self.tokens.len() {
            false
        } else {
            true
        }
    }

    /// The place of the next token, or the end.
    pub fn place_or(&self, end: Place) -> Place
        ensures { result ≡ place_of end (toks self.now) }
    {
        if self.index < self.tokens.len() {
            self.tokens[self.index].place
        } else {
            end
        }
    }

    /// Takes the next token, if it is of the class.
    pub fn take(&mut self, class: Class) -> Result<SyntaxToken<'a>, ParseError>
        ensures gives { Gives tok_of result (toks self.new) (the_at class (toks self.old)) }
        ensures fewer { length (toks self.new) ≤ length (toks self.old) }
        ensures less { OnOk result (length (toks self.new) < length (toks self.old)) }
    {
        if self.index >= self.tokens.len() {
            return Err(ParseError::Syntax);
        }
        let token = self.tokens[self.index];
        if token.class as u8 != class as u8 {
            return Err(ParseError::Syntax);
        }
        self.index += 1;
        Ok(token)
    }

    /// Takes the next token, if it is of the class.
    pub fn skip(&mut self, class: Class) -> Option<SyntaxToken<'a>>
        ensures gives { maybe_at (is class) (the_at class) (toks self.old) ≡ Ok (option_view tok_of result, toks self.new) }
        ensures fewer { length (toks self.new) ≤ length (toks self.old) }
    {
        if self.index >= self.tokens.len() {
            return None;
        }
        let token = self.tokens[self.index];
        if token.class as u8 != class as u8 {
            return None;
        }
        self.index += 1;
        Some(token)
    }
}
