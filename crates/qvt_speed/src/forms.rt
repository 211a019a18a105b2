//! The operations that are timed: how each is called, and on what.

use crate::items::{items, kind_of, long_text, longest, one};
use crate::words::{number, word};
use qvt_ocl_words::op::Op;
use qvt_value::make::make;
use qvt_value::value::{Kind, Value, Values};
use std::alloc::Global;

/// The arguments of a call.
#[derive(Clone, Copy)]
pub enum Taking {
    Nothing,
    /// A collection of the same kind, half of whose items are the source's.
    Half,
    /// A collection of the same kind, none of whose items is the source's.
    Others,
    /// What equals the source.
    Same,
    /// An item that comes after all others.
    Last,
    /// An index in the middle, and such an item.
    Placed,
    /// The last index.
    Index,
    /// The indices of the second half.
    Span,
    /// A text that stands nowhere.
    Absent,
    /// Half of the text, and then a text that stands nowhere.
    AbsentAfterHalf,
}

/// The operations on a collection, each by the name of its form and with how it is called.
const ON_COLLECTIONS: [(&str, Op, Taking); 31] = [
    ("equal", Op::Equal, Taking::Same),
    ("size", Op::Size, Taking::Nothing),
    ("isEmpty", Op::IsEmpty, Taking::Nothing),
    ("includes", Op::Includes, Taking::Last),
    ("count", Op::Count, Taking::Last),
    ("includesAll", Op::IncludesAll, Taking::Same),
    ("excludesAll", Op::ExcludesAll, Taking::Others),
    ("including", Op::Including, Taking::Last),
    ("excluding", Op::Excluding, Taking::Last),
    ("union", Op::Union, Taking::Half),
    ("flatten", Op::Flatten, Taking::Nothing),
    ("asSet", Op::AsSet, Taking::Nothing),
    ("asBag", Op::AsBag, Taking::Nothing),
    ("asSequence", Op::AsSequence, Taking::Nothing),
    ("asOrderedSet", Op::AsOrderedSet, Taking::Nothing),
    ("sum", Op::Sum, Taking::Nothing),
    ("min", Op::Min, Taking::Nothing),
    ("max", Op::Max, Taking::Nothing),
    ("intersection", Op::Intersection, Taking::Half),
    ("minus", Op::Minus, Taking::Half),
    ("first", Op::First, Taking::Nothing),
    ("last", Op::Last, Taking::Nothing),
    ("at", Op::At, Taking::Index),
    ("indexOf", Op::IndexOf, Taking::Last),
    ("append", Op::Append, Taking::Last),
    ("prepend", Op::Prepend, Taking::Last),
    ("insertAt", Op::InsertAt, Taking::Placed),
    ("reverse", Op::Reverse, Taking::Nothing),
    ("subSequence", Op::SubSequence, Taking::Span),
    ("subOrderedSet", Op::SubOrderedSet, Taking::Span),
    ("isInvalid", Op::IsInvalid, Taking::Nothing),
];

/// The operations on a text.
const ON_TEXTS: [(&str, Op, Taking); 16] = [
    ("textEqual", Op::Equal, Taking::Same),
    ("textLess", Op::Less, Taking::Same),
    ("textConcat", Op::Concat, Taking::Same),
    ("textSize", Op::Size, Taking::Nothing),
    ("textSubstring", Op::Substring, Taking::Span),
    ("textAt", Op::At, Taking::Index),
    ("textCharacters", Op::Characters, Taking::Nothing),
    ("textIndexOf", Op::IndexOf, Taking::Absent),
    ("textIndexOfHalf", Op::IndexOf, Taking::AbsentAfterHalf),
    ("textStartsWith", Op::StartsWith, Taking::Same),
    ("textEndsWith", Op::EndsWith, Taking::Same),
    ("textToUpper", Op::ToUpper, Taking::Nothing),
    ("textToLower", Op::ToLower, Taking::Nothing),
    ("textFirstToUpper", Op::FirstToUpper, Taking::Nothing),
    ("textFirstToLower", Op::FirstToLower, Taking::Nothing),
    ("textToInteger", Op::ToInteger, Taking::Nothing),
];

/// What is asked for: the items, their kind, how many there are, and how many calls.
#[derive(Clone, Copy)]
pub struct Work<'a> {
    pub data: &'a str,
    pub kind: Kind,
    pub n: u32,
    pub times: u32,
}

fn named(forms: &[(&str, Op, Taking)], name: &str) -> Option<(Op, Taking)> {
    for (form, op, taking) in forms {
        if *form == name {
            return Some((*op, *taking));
        }
    }
    None
}

/// The operation on a collection, and how it is called.
pub fn on_collections(name: &str) -> Option<(Op, Taking)> {
    named(&ON_COLLECTIONS, name)
}

/// The operation on a text, and how it is called.
pub fn on_texts(name: &str) -> Option<(Op, Taking)> {
    named(&ON_TEXTS, name)
}

/// What the words after the form ask for.
pub fn work_of<'a>(words: &[&'a str]) -> Option<Work<'a>> {
    let kind = kind_of(word(words, 3))?;
    let n = number(words, 4)?;
    let times = number(words, 5)?;
    Some(Work {
        data: word(words, 2),
        kind,
        n,
        times,
    })
}

/// The collection of as many items, those from a number on.
fn collection_from(alloc: Global, work: &Work, from: u32) -> Option<Value> {
    make(alloc, work.kind, items(alloc, work.data, from, work.n)?).ok()
}

/// The collection.
pub fn collection(alloc: Global, work: &Work) -> Option<Value> {
    collection_from(alloc, work, 0)
}

/// The text.
pub fn text(alloc: Global, work: &Work) -> Option<Value> {
    Some(Value::Str(long_text(alloc, work.data, work.n)?))
}

/// Two values.
fn two(alloc: Global, first: Value, second: Value) -> Option<Values> {
    let mut values = one(alloc, first)?;
    values.push(second).ok()?;
    Some(values)
}

fn half_and_absent(alloc: Global, work: &Work) -> Option<Value> {
    let mut text = long_text(alloc, work.data, work.n / 2)?;
    text.push('z').ok()?;
    Some(Value::Str(text))
}

fn index(number: u32) -> Value {
    Value::Int(i64::from(number))
}

/// The arguments of a call on a collection.
pub fn collection_arguments(alloc: Global, taking: Taking, work: &Work) -> Option<Values> {
    match taking {
        Taking::Half => one(alloc, collection_from(alloc, work, work.n / 2)?),
        Taking::Others => one(alloc, collection_from(alloc, work, work.n)?),
        Taking::Same => one(alloc, collection(alloc, work)?),
        Taking::Last => one(alloc, longest(alloc, work.data)?),
        Taking::Placed => two(alloc, index(work.n / 2), longest(alloc, work.data)?),
        _ => indices(alloc, taking, work),
    }
}

/// The arguments of a call on a text.
pub fn text_arguments(alloc: Global, taking: Taking, work: &Work) -> Option<Values> {
    match taking {
        Taking::Same => one(alloc, text(alloc, work)?),
        Taking::Absent => one(alloc, longest(alloc, "texts")?),
        Taking::AbsentAfterHalf => one(alloc, half_and_absent(alloc, work)?),
        _ => indices(alloc, taking, work),
    }
}

/// The arguments that are indices, or none.
fn indices(alloc: Global, taking: Taking, work: &Work) -> Option<Values> {
    match taking {
        Taking::Index => one(alloc, index(work.n)),
        Taking::Span => two(alloc, index(work.n / 2), index(work.n)),
        _ => Some(Values::new(alloc)),
    }
}
