ghost use Rattle.std.specs.Prelude.{◌≡◌, [], ◌∷◌};
ghost use Rattle.std.specs.Str.{bytes_eq};
ghost use Rattle.qvt_words.specs.Words as table;

use crate::class::Class;

/// The reserved words.
const WORDS: [Class; 59] = [
    Class::AndWord,
    Class::BagWord,
    Class::ClassWord,
    Class::ConstructorWord,
    Class::DisjunctsWord,
    Class::ElifWord,
    Class::ElseWord,
    Class::EndWord,
    Class::EndifWord,
    Class::ExtendsWord,
    Class::FalseWord,
    Class::ForEachWord,
    Class::HelperWord,
    Class::IfWord,
    Class::ImpliesWord,
    Class::ImportWord,
    Class::InWord,
    Class::InheritsWord,
    Class::InitWord,
    Class::InoutWord,
    Class::IntermediateWord,
    Class::InvResolveWord,
    Class::InvResolveInWord,
    Class::InvResolveOneWord,
    Class::InvResolveOneInWord,
    Class::LateWord,
    Class::LibraryWord,
    Class::MainWord,
    Class::MapWord,
    Class::MappingWord,
    Class::MergesWord,
    Class::ModelTypeWord,
    Class::NewWord,
    Class::NotWord,
    Class::NullWord,
    Class::ObjectWord,
    Class::OrWord,
    Class::OrderedSetWord,
    Class::OutWord,
    Class::PopulationWord,
    Class::QueryWord,
    Class::ResolveAllWord,
    Class::ResolveInWord,
    Class::ResolveOneWord,
    Class::ResolveOneInWord,
    Class::ResultWord,
    Class::ReturnWord,
    Class::SelfWord,
    Class::SequenceWord,
    Class::SetWord,
    Class::ThenWord,
    Class::TransformationWord,
    Class::TrueWord,
    Class::UsesWord,
    Class::VarWord,
    Class::WhenWord,
    Class::WhileWord,
    Class::XmapWord,
    Class::XorWord,
];

/// The signs of one character.
const SINGLE_SIGNS: [Class; 16] = [
    Class::OpenRound,
    Class::CloseRound,
    Class::OpenBrace,
    Class::CloseBrace,
    Class::Comma,
    Class::Semicolon,
    Class::Colon,
    Class::Dot,
    Class::Bar,
    Class::AtSign,
    Class::EqualSign,
    Class::LessSign,
    Class::GreaterSign,
    Class::PlusSign,
    Class::MinusSign,
    Class::Star,
];

/// The signs of two characters.
const DOUBLE_SIGNS: [Class; 10] = [
    Class::DoubleColon,
    Class::DotDot,
    Class::Arrow,
    Class::DoubleEqual,
    Class::Diamond,
    Class::BangEqual,
    Class::AtMost,
    Class::AtLeast,
    Class::Becomes,
    Class::PlusEqual,
];

/// The spelling of a sign or a reserved word, and the empty text for names, numbers and texts.
pub fn spelling(class: Class) -> &'static str
    ensures { result.now ≡ table.spelling class }
{
    match class {
        Class::Name => "",
        Class::Integer => "",
        Class::Str => "",
        Class::OpenRound => "(",
        Class::CloseRound => ")",
        Class::OpenBrace => "{",
        Class::CloseBrace => "}",
        Class::Comma => ",",
        Class::Semicolon => ";",
        Class::Colon => ":",
        Class::DoubleColon => "::",
        Class::Dot => ".",
        Class::DotDot => "..",
        Class::Arrow => "->",
        Class::Bar => "|",
        Class::AtSign => "@",
        Class::EqualSign => "=",
        Class::DoubleEqual => "==",
        Class::Diamond => "<>",
        Class::BangEqual => "!=",
        Class::LessSign => "<",
        Class::AtMost => "<=",
        Class::GreaterSign => ">",
        Class::AtLeast => ">=",
        Class::PlusSign => "+",
        Class::MinusSign => "-",
        Class::Star => "*",
        Class::Becomes => ":=",
        Class::PlusEqual => "+=",
        Class::AndWord => "and",
        Class::BagWord => "Bag",
        Class::ClassWord => "class",
        Class::ConstructorWord => "constructor",
        Class::DisjunctsWord => "disjuncts",
        Class::ElifWord => "elif",
        Class::ElseWord => "else",
        Class::EndWord => "end",
        Class::EndifWord => "endif",
        Class::ExtendsWord => "extends",
        Class::FalseWord => "false",
        Class::ForEachWord => "forEach",
        Class::HelperWord => "helper",
        Class::IfWord => "if",
        Class::ImpliesWord => "implies",
        Class::ImportWord => "import",
        Class::InWord => "in",
        Class::InheritsWord => "inherits",
        Class::InitWord => "init",
        Class::InoutWord => "inout",
        Class::IntermediateWord => "intermediate",
        Class::InvResolveWord => "invresolve",
        Class::InvResolveInWord => "invresolveIn",
        Class::InvResolveOneWord => "invresolveone",
        Class::InvResolveOneInWord => "invresolveoneIn",
        Class::LateWord => "late",
        Class::LibraryWord => "library",
        Class::MainWord => "main",
        Class::MapWord => "map",
        Class::MappingWord => "mapping",
        Class::MergesWord => "merges",
        Class::ModelTypeWord => "modeltype",
        Class::NewWord => "new",
        Class::NotWord => "not",
        Class::NullWord => "null",
        Class::ObjectWord => "object",
        Class::OrWord => "or",
        Class::OrderedSetWord => "OrderedSet",
        Class::OutWord => "out",
        Class::PopulationWord => "population",
        Class::QueryWord => "query",
        Class::ResolveAllWord => "resolve",
        Class::ResolveInWord => "resolveIn",
        Class::ResolveOneWord => "resolveone",
        Class::ResolveOneInWord => "resolveoneIn",
        Class::ResultWord => "result",
        Class::ReturnWord => "return",
        Class::SelfWord => "self",
        Class::SequenceWord => "Sequence",
        Class::SetWord => "Set",
        Class::ThenWord => "then",
        Class::TransformationWord => "transformation",
        Class::TrueWord => "true",
        Class::UsesWord => "uses",
        Class::VarWord => "var",
        Class::WhenWord => "when",
        Class::WhileWord => "while",
        Class::XmapWord => "xmap",
        Class::XorWord => "xor",
    }
}

/// The first of the classes that is spelled so.
fn found(text: &str, classes: &[Class]) -> Option<Class>
    ensures { result ≡ table.found text.now classes.now }
{
    classes
        .iter()
        .copied()
        .find(|class| text == spelling(*class))
}

/// The reserved word that is spelled so.
#[tactic(auto, unfolding(crate::specs::Words::word_of))]
pub fn word_of(text: &str) -> Option<Class>
    ensures { result ≡ table.word_of text.now }
{
    found(text, &WORDS)
}

/// Whether the text is a reserved word.
#[tactic(auto, unfolding(crate::specs::Words::is_reserved))]
pub fn is_reserved(text: &str) -> bool
    ensures { result ≡ table.is_reserved text.now }
{
    word_of(text).is_some()
}

/// The sign that is spelled so.
#[tactic(auto, unfolding(crate::specs::Words::sign_of))]
pub fn sign_of(text: &str) -> Option<Class>
    ensures { result ≡ table.sign_of text.now }
{
    match found(text, &SINGLE_SIGNS) {
        Some(class) => Some(class),
        None => found(text, &DOUBLE_SIGNS),
    }
}

/// Whether a text is this one character.
fn is_one(text: &str, c: char) -> bool
    ensures { result ≡ bytes_eq (c ∷ []) text.now }
{
    let bytes = text.as_bytes();
    bytes.len() == 1 && bytes[0] as char == c
}

/// Whether a text is these two characters.
fn is_two(text: &str, c: char, d: char) -> bool
    ensures { result ≡ bytes_eq (c ∷ d ∷ []) text.now }
{
    let bytes = text.as_bytes();
    bytes.len() == 2 && bytes[0] as char == c && bytes[1] as char == d
}

/// Whether the character is a sign.
#[tactic(auto, unfolding(crate::specs::Words::is_single_sign))]
pub fn is_single_sign(c: char) -> bool
    ensures { result ≡ table.is_single_sign c }
{
    SINGLE_SIGNS.iter().any(|class| is_one(spelling(*class), c))
}

/// Whether the two characters are a sign.
#[tactic(auto, unfolding(crate::specs::Words::is_double_sign))]
pub fn is_double_sign(c: char, d: char) -> bool
    ensures { result ≡ table.is_double_sign c d }
{
    DOUBLE_SIGNS
        .iter()
        .any(|class| is_two(spelling(*class), c, d))
}
