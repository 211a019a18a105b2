use qvt_base::numbers::Place;

/// The kinds of token. A `Word` is a reserved word, and `End` stands after the last token.
#[derive(Clone, Copy, Debug, PartialEq, Eq)]
pub enum TokenKind {
    Name,
    Integer,
    Str,
    Word,
    Symbol,
    End,
}

/// A token, with the place where it begins and its text, which is the slice of the source at that
/// place. The texts of names in `_'..'` and of strings have their quotes.
#[derive(Clone, Copy, Debug)]
pub struct Token<'a> {
    pub kind: TokenKind,
    pub place: Place,
    pub text: &'a str,
}

/// Why there is no token at a place.
#[derive(Clone, Copy, Debug, PartialEq, Eq)]
pub enum LexKind {
    /// The character begins no token.
    BadChar,
    /// The text that opens here is not closed on its line.
    OpenText,
    /// The comment that opens here is not closed.
    OpenComment,
    /// No escape begins at the backslash, or no escaped name at the `_'`.
    BadEscape,
    /// The number that begins here is above the greatest whole number.
    NumberTooLarge,
}

#[derive(Clone, Copy, Debug, PartialEq, Eq)]
pub struct LexFault {
    pub kind: LexKind,
    pub place: Place,
}
