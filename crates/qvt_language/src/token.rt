use qvt_base::numbers::Place;
use qvt_words::class::Class;

/// A token with what it says: of a name the name without quotes, of a string its characters, of an
/// integer its number. The text of any other token is empty, and its number is 0.
#[derive(Clone, Copy)]
pub struct SyntaxToken<'a> {
    pub class: Class,
    pub place: Place,
    pub text: &'a str,
    pub number: i64,
}
