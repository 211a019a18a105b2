ghost use Rattle.std.specs.Prelude.{◌≡◌, pos, IfOk};
ghost use Rattle.std.specs.Str.{chars, encode_utf8_all};
ghost use Rattle.qvt_lexer.specs.Literals.{number_of};
ghost use Rattle.qvt_parser_tokens.specs.Said as said;
ghost use Rattle.qvt_parser_tokens.specs.Whole.{IsNumeral};

use qvt_base::list_fault::ListFault;
use qvt_base::text::Text;
use qvt_lexer::literals::item;
use std::alloc::Global;

/// The name that a name's token says: the one between the quotes where it is written as `_'..'`.
pub fn name_of(text: &str) -> &str
    ensures { result.now ≡ said.name_of text.now }
{
    let bytes = text.as_bytes();
    let len = bytes.len();
    if len >= 3 && bytes[0] == b'_' && bytes[1] == b'\'' && bytes[len - 1] == b'\'' {
        &text[2..len - 1]
    } else {
        text
    }
}

/// The number that decimal digits write.
pub fn number_of(digits: &str) -> i64
    requires { IsNumeral digits.now }
    ensures { result ≡ pos (number_of (chars digits.now)) }
{
    match digits.parse::<i64>() {
        Ok(number) => number,
        Err(_) => 0,
    }
}

/// The characters that stand between quotes of this kind, with escapes resolved.
fn content(alloc: Global, quote: char, text: &str) -> Result<Text, ListFault>
    ensures { IfOk result (λ t. t ≡ encode_utf8_all (said.content quote (chars text.now))) }
{
    let mut out = Text::new(alloc);
    let mut rest = text;
    while let Some((c, more)) = item(quote, rest) {
        out.push(c)?;
        rest = more;
    }
    Ok(out)
}

/// The characters of a string as it is written, quotes and all, with escapes resolved.
pub fn string_of(alloc: Global, text: &str) -> Result<Text, ListFault>
    ensures { IfOk result (λ t. t ≡ encode_utf8_all (said.string_of (chars text.now))) }
{
    let mut all = text.chars();
    match all.next() {
        Some(quote) => content(alloc, quote, all.as_str()),
        None => Ok(Text::new(alloc)),
    }
}
