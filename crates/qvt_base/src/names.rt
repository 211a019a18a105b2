ghost use Rattle.std.specs.Prelude.{◌≡◌, ◌<◌, [], ◌∷◌, length, not, MatchOption, IfSome};
ghost use Rattle.std.specs.List.{list_all};
ghost use Rattle.std.specs.Str.{chars, IsUtf8};
ghost use Rattle.unicode_ident.specs.Ident.{is_xid_continue};
ghost use Rattle.qvt_base.specs.Names.{begins_name, is_name, is_file, is_control};

use unicode_ident::{is_xid_continue, is_xid_start};

/// The first character, and the text after it. It takes no memory.
pub fn split_first_char(text: &str) -> Option<(char, &str)>
    ensures characters { MatchOption result (chars text.now ≡ []) (λ x. chars text.now ≡ x.0 ∷ chars x.1.now) }
    ensures text { IfSome result (λ x. IsUtf8 x.1.now) }
    ensures shorter { IfSome result (λ x. length x.1.now < length text.now) }
{
    let mut all = text.chars();
    let c = all.next()?;
    Some((c, all.as_str()))
}

/// How many characters the text has.
pub fn count_chars(text: &str) -> usize
    ensures { result ≡ length (chars text.now) }
{
    text.chars().count()
}

/// Whether each character may go on in an identifier.
fn all_go_on(text: &str) -> bool
    ensures { result ≡ list_all is_xid_continue (chars text.now) }
{
    let mut rest = text;
    while let Some((c, more)) = split_first_char(rest) {
        if !is_xid_continue(c) {
            return false;
        }
        rest = more;
    }
    true
}

/// Whether no character is a control character.
fn none_controls(text: &str) -> bool
    ensures { result ≡ list_all (λ c. not (is_control c)) (chars text.now) }
{
    let mut rest = text;
    while let Some((c, more)) = split_first_char(rest) {
        if c < ' ' || c == '\u{7f}' {
            return false;
        }
        rest = more;
    }
    true
}

/// Whether the first character begins a name and the others may go on in one.
fn begins_name(text: &str) -> bool
    ensures { result ≡ begins_name (chars text.now) }
{
    match split_first_char(text) {
        None => false,
        Some((first, rest)) => (is_xid_start(first) || first == '_') && all_go_on(rest),
    }
}

/// Whether the text is a name: 1 to 200 characters, the first `_` or one that may begin an
/// identifier (XID_Start), the others ones that may go on in it (XID_Continue).
#[tactic(auto, unfolding(crate::specs::Names::is_name))]
pub fn is_name(text: &str) -> bool
    ensures { result ≡ is_name text.now }
{
    begins_name(text) && count_chars(text) <= 200
}

/// Whether the text may name a file: 1 to 200 characters without control characters.
#[tactic(auto, unfolding(crate::specs::Names::is_file))]
pub fn is_file(text: &str) -> bool
    ensures { result ≡ is_file text.now }
{
    let count = count_chars(text);
    0 < count && count <= 200 && none_controls(text)
}
