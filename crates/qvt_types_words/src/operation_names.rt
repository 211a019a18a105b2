//! The operations by their names.

ghost use Rattle.std.specs.Prelude.{◌≡◌};
ghost use Rattle.qvt_types_words.specs.OperationNames as names;

use qvt_ocl_types::op::Op;

/// The operations of all values.
#[tactic(auto, unfolding(crate::specs::OperationNames::of_any))]
fn of_any(name: &str) -> Option<Op>
    ensures { result ≡ names.of_any name.now }
{
    if name == "oclIsUndefined" {
        return Some(Op::IsUndefined);
    }
    if name == "oclIsInvalid" {
        return Some(Op::IsInvalid);
    }
    None
}

/// The operations of numbers, and of a text of them.
#[tactic(auto, unfolding(crate::specs::OperationNames::of_numbers))]
fn of_numbers(name: &str) -> Option<Op>
    ensures { result ≡ names.of_numbers name.now }
{
    if name == "abs" {
        return Some(Op::Abs);
    }
    if name == "min" {
        return Some(Op::Min);
    }
    if name == "max" {
        return Some(Op::Max);
    }
    if name == "div" {
        return Some(Op::Div);
    }
    if name == "mod" {
        return Some(Op::Mod);
    }
    if name == "toString" {
        return Some(Op::ToString);
    }
    if name == "toInteger" {
        return Some(Op::ToInteger);
    }
    None
}

/// The operations of texts.
#[tactic(auto, unfolding(crate::specs::OperationNames::of_texts))]
fn of_texts(name: &str) -> Option<Op>
    ensures { result ≡ names.of_texts name.now }
{
    if name == "concat" {
        return Some(Op::Concat);
    }
    if name == "substring" {
        return Some(Op::Substring);
    }
    if name == "characters" {
        return Some(Op::Characters);
    }
    if name == "startsWith" {
        return Some(Op::StartsWith);
    }
    if name == "endsWith" {
        return Some(Op::EndsWith);
    }
    None
}

/// The operations of the letters of a text; two have a shorter name.
#[tactic(auto, unfolding(crate::specs::OperationNames::of_letters))]
fn of_letters(name: &str) -> Option<Op>
    ensures { result ≡ names.of_letters name.now }
{
    if name == "toUpperCase" {
        return Some(Op::ToUpper);
    }
    if name == "toUpper" {
        return Some(Op::ToUpper);
    }
    if name == "toLowerCase" {
        return Some(Op::ToLower);
    }
    if name == "toLower" {
        return Some(Op::ToLower);
    }
    if name == "firstToUpper" {
        return Some(Op::FirstToUpper);
    }
    if name == "firstToLower" {
        return Some(Op::FirstToLower);
    }
    None
}

/// The operations of collections, by their items.
#[tactic(auto, unfolding(crate::specs::OperationNames::of_items))]
fn of_items(name: &str) -> Option<Op>
    ensures { result ≡ names.of_items name.now }
{
    if name == "size" {
        return Some(Op::Size);
    }
    if name == "isEmpty" {
        return Some(Op::IsEmpty);
    }
    if name == "notEmpty" {
        return Some(Op::NotEmpty);
    }
    if name == "includes" {
        return Some(Op::Includes);
    }
    if name == "excludes" {
        return Some(Op::Excludes);
    }
    if name == "count" {
        return Some(Op::Count);
    }
    if name == "including" {
        return Some(Op::Including);
    }
    if name == "excluding" {
        return Some(Op::Excluding);
    }
    if name == "sum" {
        return Some(Op::Sum);
    }
    None
}

/// The operations of collections, with others and as other kinds.
#[tactic(auto, unfolding(crate::specs::OperationNames::of_collections))]
fn of_collections(name: &str) -> Option<Op>
    ensures { result ≡ names.of_collections name.now }
{
    if name == "includesAll" {
        return Some(Op::IncludesAll);
    }
    if name == "excludesAll" {
        return Some(Op::ExcludesAll);
    }
    if name == "union" {
        return Some(Op::Union);
    }
    if name == "intersection" {
        return Some(Op::Intersection);
    }
    if name == "flatten" {
        return Some(Op::Flatten);
    }
    if name == "asSet" {
        return Some(Op::AsSet);
    }
    if name == "asBag" {
        return Some(Op::AsBag);
    }
    if name == "asSequence" {
        return Some(Op::AsSequence);
    }
    if name == "asOrderedSet" {
        return Some(Op::AsOrderedSet);
    }
    None
}

/// The operations by places of items.
#[tactic(auto, unfolding(crate::specs::OperationNames::of_places))]
fn of_places(name: &str) -> Option<Op>
    ensures { result ≡ names.of_places name.now }
{
    if name == "first" {
        return Some(Op::First);
    }
    if name == "last" {
        return Some(Op::Last);
    }
    if name == "at" {
        return Some(Op::At);
    }
    if name == "indexOf" {
        return Some(Op::IndexOf);
    }
    if name == "append" {
        return Some(Op::Append);
    }
    if name == "prepend" {
        return Some(Op::Prepend);
    }
    if name == "insertAt" {
        return Some(Op::InsertAt);
    }
    if name == "reverse" {
        return Some(Op::Reverse);
    }
    if name == "subSequence" {
        return Some(Op::SubSequence);
    }
    if name == "subOrderedSet" {
        return Some(Op::SubOrderedSet);
    }
    None
}

/// The operation of this name, None where there is none. Which values have it tells the table of types.
pub fn operation_named(name: &str) -> Option<Op>
    ensures { result ≡ names.operation_named name.now }
{
    if let Some(op) = of_any(name) {
        return Some(op);
    }
    if let Some(op) = of_numbers(name) {
        return Some(op);
    }
    if let Some(op) = of_texts(name) {
        return Some(op);
    }
    if let Some(op) = of_letters(name) {
        return Some(op);
    }
    if let Some(op) = of_items(name) {
        return Some(op);
    }
    if let Some(op) = of_collections(name) {
        return Some(op);
    }
    of_places(name)
}
