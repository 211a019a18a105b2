ghost use Rattle.std.specs.Prelude.{◌≡◌, ◌≢◌, ◌+◌, ◌<◌, ◌^◌, ◌∷◌, ℕ, List, length};
ghost use Rattle.qvt_lexer.specs.Division.{data_of};
ghost use Rattle.qvt_lexer.specs.declared.token.TokenKind.TheVariants as kinds;
ghost use Rattle.qvt_language.specs.Tokens.{tok_of};
ghost use Rattle.qvt_parser_tokens.specs.Said as said;
ghost use Rattle.qvt_parser_tokens.specs.Text.{OneLexing};
ghost use Rattle.qvt_parser_tokens.specs.Whole.{HasStrings, ReadsStrings, Lexes, IsNumeral};

use crate::said::{name_of, number_of, string_of};
use qvt_base::list_fault::ListFault;
use qvt_base::numbers::Place;
use qvt_base::seq::Seq;
use qvt_base::text::Text;
use qvt_language::class::Class;
use qvt_language::token::SyntaxToken;
use qvt_lexer::lexer::Lexer;
use qvt_lexer::token as lexed;
use qvt_lexer::token::{LexFault, TokenKind};
use qvt_words::words::{sign_of, word_of};
use std::alloc::Global;

/// The tokens of a whole text, with the place after its last character.
#[derive(Drop)]
pub struct TextTokens<'a> {
    pub tokens: Seq<SyntaxToken<'a>>,
    pub end: Place,
}

/// Why a text has no tokens.
#[derive(Clone, Copy, Debug, PartialEq, Eq)]
pub enum TextFault {
    /// There was no memory.
    NoMemory,
    /// No token begins at a place of the text.
    Lex(LexFault),
}

impl From<ListFault> for TextFault {
    ghost use Rattle.std.specs.Prelude.{◌≡◌};
    ghost use Rattle.qvt_parser_tokens.specs.declared.text.TextFault.TheVariants.{NoMemory};

    ghost from_gives = { λ _ e. e ≡ NoMemory };

    fn from(_: ListFault) -> TextFault {
        TextFault::NoMemory
    }
}

fn token_class_of(token: lexed::Token<'_>) -> Class
    ensures { result ≡ said.token_class_of token.entry.kind token.entry.text.now }
{
    match token.kind {
        TokenKind::Integer => Class::Integer,
        TokenKind::Str => Class::Str,
        TokenKind::Word => word_of(token.text).unwrap_or(Class::Name),
        TokenKind::Symbol => sign_of(token.text).unwrap_or(Class::Name),
        _ => Class::Name,
    }
}

/// The text of a token that is no string, which is a slice of the source.
fn text_of(token: lexed::Token<'_>) -> &str
    requires { token.kind ≢ kinds.Str }
    ensures { result.now ≡ said.text_of token.entry.kind token.entry.text.now }
{
    match token.kind {
        TokenKind::Name => name_of(token.text),
        _ => "",
    }
}

fn number_in(token: lexed::Token<'_>) -> i64
    requires { token.kind ≡ kinds.Integer → IsNumeral token.text.now }
    ensures { result ≡ said.number_in token.entry.kind token.entry.text.now }
{
    match token.kind {
        TokenKind::Integer => number_of(token.text),
        _ => 0,
    }
}

/// What a token that is no string says to the grammar.
fn plain(token: lexed::Token<'_>) -> SyntaxToken<'_>
    requires integer { token.kind ≡ kinds.Integer → IsNumeral token.text.now }
    requires other { token.kind ≢ kinds.Str }
    ensures { tok_of result ≡ said.said (data_of token.entry) }
{
    SyntaxToken {
        class: token_class_of(token),
        place: token.place,
        text: text_of(token),
        number: number_in(token),
    }
}

/// The texts of the strings of the whole text, in order, or the fault of the first place where no
/// token begins. The text has fewer than 2^32 - 1 bytes.
pub fn strings(alloc: Global, text: &str) -> Result<Seq<Text>, TextFault>
    requires { length text.now + 1 < 2 ^ 32 }
    ensures { ReadsStrings text.now result }
{
    let mut lexer = Lexer::new(text);
    let mut strings = Seq::new(alloc);
    loop {
        match lexer.next() {
            Ok(token) => match token.kind {
                TokenKind::End => return Ok(strings),
                TokenKind::Str => {
                    let string = string_of(alloc, token.text)?;
                    strings.push(string)?;
                }
                _ => {}
            },
            Err(fault) => return Err(TextFault::Lex(fault)),
        }
    }
}

/// The first of the texts, and the others.
fn first_of(texts: &[Text]) -> (&str, &[Text])
    ensures { (first : List ℕ) (more : List (List ℕ)) → texts.entry.now ≡ first ∷ more → (result.0.now ≡ first) × (result.1.now ≡ more) }
{
    match texts.split_first() {
        Some((first, more)) => (first.as_str(), more),
        None => ("", texts),
    }
}

/// All tokens of the text, or the fault of the first place where none begins. `strings` are the texts
/// of its strings.
pub fn read<'a>(
    alloc: Global,
    text: &'a str,
    strings: &'a [Text],
) -> Result<TextTokens<'a>, TextFault>
    requires few { length text.now + 1 < 2 ^ 32 }
    requires strings { HasStrings text.now strings.now }
    ensures { Lexes text.now result }
{
    let mut lexer = Lexer::new(text);
    let mut left = strings;
    let mut tokens = Seq::new(alloc);
    loop {
        match lexer.next() {
            Ok(token) => match token.kind {
                TokenKind::End => {
                    return Ok(TextTokens {
                        tokens,
                        end: token.place,
                    });
                }
                TokenKind::Str => {
                    let (string, more) = first_of(left);
                    left = more;
                    tokens.push(SyntaxToken {
                        class: Class::Str,
                        place: token.place,
                        text: string,
                        number: 0,
                    })?;
                }
                _ => tokens.push(plain(token))?,
            },
            Err(fault) => return Err(TextFault::Lex(fault)),
        }
    }
}

/// Its clause is the law that a text has one list of tokens or one fault. It does nothing.
pub fn one_lexing()
    ensures { OneLexing }
{}
