ghost use Rattle.std.specs.Prelude.{◌≡◌, ◌∷◌, [], ◌++◌, ◌+◌, ◌<◌, ◌==◌, length, MatchOption, IfSome};
ghost use Rattle.std.specs.Char.{encode_utf8};
ghost use Rattle.std.specs.Str.{chars, IsUtf8};
ghost use Rattle.qvt_lexer.specs.Characters as class;
ghost use Rattle.qvt_lexer.specs.Literals as literal;
ghost use Rattle.qvt_lexer.specs.Classes.{in_class};
ghost use Rattle.qvt_lexer.specs.Ends.{IsEndOf};

/// The classes of characters of which a run is skipped.
#[derive(Clone, Copy)]
pub enum CharacterClass {
    /// What continues a name.
    Continue,
    /// Decimal digits.
    Digit,
    /// All but the line feed.
    Line,
}

/// The first character, and the text after it.
pub fn split_char(text: &str) -> Option<(char, &str)>
    ensures bytes { MatchOption result (text.now ≡ []) (λ x. text.now ≡ encode_utf8 x.0 ++ x.1.now) }
    ensures characters { MatchOption result (chars text.now ≡ []) (λ x. chars text.now ≡ x.0 ∷ chars x.1.now) }
    ensures text { IfSome result (λ x. IsUtf8 x.1.now) }
    ensures shorter { IfSome result (λ x. length x.1.now < length text.now) }
    ensures end { IfSome result (λ x. IsEndOf text.now x.1.now) }
{
    let mut all = text.chars();
    let c = all.next()?;
    Some((c, all.as_str()))
}

/// The text before its end.
pub fn before<'a>(text: &'a str, rest: &str) -> &'a str
    requires { IsEndOf text.now rest.now }
    ensures { text.now ≡ result.now ++ rest.now }
{
    let len = text.len() - rest.len();
    &text[..len]
}

pub fn is_blank(c: char) -> bool
    ensures { result ≡ class.is_blank c }
{
    (c == ' ') | (c == '\t') | (c == '\r') | (c == '\n')
}

pub fn is_start(c: char) -> bool
    ensures { result ≡ class.is_start c }
{
    (c == '_') | unicode_ident::is_xid_start(c)
}

pub fn is_digit(c: char) -> bool
    ensures { result ≡ class.is_digit c }
{
    (c <= '9') & (c >= '0')
}

pub fn is_quote(c: char) -> bool
    ensures { result ≡ class.is_quote c }
{
    (c == '\'') | (c == '"')
}

pub fn is_hex(c: char) -> bool
    ensures { result ≡ class.is_hex c }
{
    ((c >= '0') & (c <= '9')) | ((c >= 'A') & (c <= 'F')) | ((c >= 'a') & (c <= 'f'))
}

pub fn is_line_comment(c: char, d: char) -> bool
    ensures { result ≡ class.is_line_comment c d }
{
    ((c == '-') & (d == '-')) | ((c == '/') & (d == '/'))
}

pub fn is_block_comment(c: char, d: char) -> bool
    ensures { result ≡ class.is_block_comment c d }
{
    (c == '/') & (d == '*')
}

fn is_in(class: CharacterClass, c: char) -> bool
    ensures { result ≡ in_class class c }
{
    match class {
        CharacterClass::Continue => unicode_ident::is_xid_continue(c),
        CharacterClass::Digit => is_digit(c),
        CharacterClass::Line => c != '\n',
    }
}

/// The text after the longest run of the class.
pub fn skip(class: CharacterClass, text: &str) -> &str
    ensures characters { chars result.now ≡ literal.skip (in_class class) (chars text.now) }
    ensures end { IsEndOf text.now result.now }
{
    let mut rest = text;
    while let Some((c, more)) = split_char(rest) {
        if !is_in(class, c) {
            return rest;
        }
        rest = more;
    }
    rest
}
