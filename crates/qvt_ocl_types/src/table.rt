//! The table of operations by types.

ghost use Rattle.std.specs.Prelude.{◌≡◌};
ghost use Rattle.qvt_ocl_types.specs.Table as table;

use crate::signature::{
    AnswerType, ArgumentSort, ArgumentSorts, Demand, Kinds, OperationSignature, Sort,
};
use qvt_ocl_words::op::Op;
use qvt_value::value::Kind;

fn row(params: ArgumentSorts, answer: AnswerType) -> Option<OperationSignature>
    ensures { result ≡ table.row params answer }
{
    Some(OperationSignature {
        demand: Demand::Any,
        params,
        answer,
    })
}

fn row_of(demand: Demand, answer: AnswerType) -> Option<OperationSignature>
    ensures { result ≡ table.row_of demand answer }
{
    Some(OperationSignature {
        demand,
        params: ArgumentSorts::None,
        answer,
    })
}

/// On a Boolean.
fn on_boolean(op: Op) -> Option<OperationSignature>
    ensures { result ≡ table.on_boolean op }
{
    match op {
        Op::ToString => row(ArgumentSorts::None, AnswerType::Text),
        _ => None,
    }
}

/// On an Integer.
fn on_integer(op: Op) -> Option<OperationSignature>
    ensures { result ≡ table.on_integer op }
{
    match op {
        Op::Plus => row(
            ArgumentSorts::One(ArgumentSort::Integer),
            AnswerType::Integer,
        ),
        Op::Minus => row(
            ArgumentSorts::One(ArgumentSort::Integer),
            AnswerType::Integer,
        ),
        Op::Times => row(
            ArgumentSorts::One(ArgumentSort::Integer),
            AnswerType::Integer,
        ),
        Op::Div => row(
            ArgumentSorts::One(ArgumentSort::Integer),
            AnswerType::Integer,
        ),
        Op::Mod => row(
            ArgumentSorts::One(ArgumentSort::Integer),
            AnswerType::Integer,
        ),
        Op::Min => row(
            ArgumentSorts::One(ArgumentSort::Integer),
            AnswerType::Integer,
        ),
        Op::Max => row(
            ArgumentSorts::One(ArgumentSort::Integer),
            AnswerType::Integer,
        ),
        Op::Less => row(
            ArgumentSorts::One(ArgumentSort::Integer),
            AnswerType::Boolean,
        ),
        Op::LessEqual => row(
            ArgumentSorts::One(ArgumentSort::Integer),
            AnswerType::Boolean,
        ),
        Op::Greater => row(
            ArgumentSorts::One(ArgumentSort::Integer),
            AnswerType::Boolean,
        ),
        Op::GreaterEqual => row(
            ArgumentSorts::One(ArgumentSort::Integer),
            AnswerType::Boolean,
        ),
        Op::Negate => row(ArgumentSorts::None, AnswerType::Integer),
        Op::Abs => row(ArgumentSorts::None, AnswerType::Integer),
        Op::ToString => row(ArgumentSorts::None, AnswerType::Text),
        _ => None,
    }
}

/// On a String.
fn on_string(op: Op) -> Option<OperationSignature>
    ensures { result ≡ table.on_string op }
{
    match op {
        Op::Plus => row(ArgumentSorts::One(ArgumentSort::Text), AnswerType::Text),
        Op::Concat => row(ArgumentSorts::One(ArgumentSort::Text), AnswerType::Text),
        Op::Size => row(ArgumentSorts::None, AnswerType::Integer),
        Op::Substring => row(
            ArgumentSorts::Two(ArgumentSort::Integer, ArgumentSort::Integer),
            AnswerType::Text,
        ),
        Op::At => row(ArgumentSorts::One(ArgumentSort::Integer), AnswerType::Text),
        Op::Characters => row(ArgumentSorts::None, AnswerType::Texts),
        Op::IndexOf => row(ArgumentSorts::One(ArgumentSort::Text), AnswerType::Integer),
        Op::StartsWith => row(ArgumentSorts::One(ArgumentSort::Text), AnswerType::Boolean),
        Op::EndsWith => row(ArgumentSorts::One(ArgumentSort::Text), AnswerType::Boolean),
        Op::ToUpper => row(ArgumentSorts::None, AnswerType::Text),
        Op::ToLower => row(ArgumentSorts::None, AnswerType::Text),
        Op::FirstToUpper => row(ArgumentSorts::None, AnswerType::Text),
        Op::FirstToLower => row(ArgumentSorts::None, AnswerType::Text),
        Op::ToInteger => row(ArgumentSorts::None, AnswerType::Integer),
        Op::Less => row(ArgumentSorts::One(ArgumentSort::Text), AnswerType::Boolean),
        Op::LessEqual => row(ArgumentSorts::One(ArgumentSort::Text), AnswerType::Boolean),
        Op::Greater => row(ArgumentSorts::One(ArgumentSort::Text), AnswerType::Boolean),
        Op::GreaterEqual => row(ArgumentSorts::One(ArgumentSort::Text), AnswerType::Boolean),
        _ => None,
    }
}

/// On a Sequence or an OrderedSet alone.
fn on_ordered(op: Op, kind: Kind) -> Option<OperationSignature>
    ensures { result ≡ table.on_ordered op kind }
{
    match op {
        Op::First => row(ArgumentSorts::None, AnswerType::Item),
        Op::Last => row(ArgumentSorts::None, AnswerType::Item),
        Op::At => row(ArgumentSorts::One(ArgumentSort::Integer), AnswerType::Item),
        Op::IndexOf => row(ArgumentSorts::One(ArgumentSort::Item), AnswerType::Integer),
        Op::Append => row(
            ArgumentSorts::One(ArgumentSort::Item),
            AnswerType::Joined(kind),
        ),
        Op::Prepend => row(
            ArgumentSorts::One(ArgumentSort::Item),
            AnswerType::Joined(kind),
        ),
        Op::InsertAt => row(
            ArgumentSorts::Two(ArgumentSort::Integer, ArgumentSort::Item),
            AnswerType::Joined(kind),
        ),
        Op::Reverse => row(ArgumentSorts::None, AnswerType::Items(kind)),
        _ => None,
    }
}

/// On some kinds alone.
fn on_kind(op: Op, kind: Kind) -> Option<OperationSignature>
    ensures { result ≡ table.on_kind op kind }
{
    match op {
        Op::SubSequence => match kind {
            Kind::Sequence => row(
                ArgumentSorts::Two(ArgumentSort::Integer, ArgumentSort::Integer),
                AnswerType::Items(Kind::Sequence),
            ),
            _ => None,
        },
        Op::SubOrderedSet => match kind {
            Kind::OrderedSet => row(
                ArgumentSorts::Two(ArgumentSort::Integer, ArgumentSort::Integer),
                AnswerType::Items(Kind::OrderedSet),
            ),
            _ => None,
        },
        Op::Minus => match kind {
            Kind::Set => row(
                ArgumentSorts::One(ArgumentSort::Items(Kinds::Every)),
                AnswerType::Items(Kind::Set),
            ),
            Kind::OrderedSet => row(
                ArgumentSorts::One(ArgumentSort::Items(Kinds::Every)),
                AnswerType::Items(Kind::OrderedSet),
            ),
            _ => None,
        },
        Op::Intersection => match kind {
            Kind::Set => row(
                ArgumentSorts::One(ArgumentSort::Items(Kinds::SetOrBag)),
                AnswerType::Common(Kind::Set),
            ),
            Kind::Bag => row(
                ArgumentSorts::One(ArgumentSort::Items(Kinds::SetOrBag)),
                AnswerType::Common(Kind::Bag),
            ),
            _ => None,
        },
        _ => match kind {
            Kind::Sequence => on_ordered(op, Kind::Sequence),
            Kind::OrderedSet => on_ordered(op, Kind::OrderedSet),
            _ => None,
        },
    }
}

/// On every collection.
fn on_collection(op: Op, kind: Kind) -> Option<OperationSignature>
    ensures { result ≡ table.on_collection op kind }
{
    match op {
        Op::Size => row(ArgumentSorts::None, AnswerType::Integer),
        Op::IsEmpty => row(ArgumentSorts::None, AnswerType::Boolean),
        Op::NotEmpty => row(ArgumentSorts::None, AnswerType::Boolean),
        Op::Includes => row(ArgumentSorts::One(ArgumentSort::Item), AnswerType::Boolean),
        Op::Excludes => row(ArgumentSorts::One(ArgumentSort::Item), AnswerType::Boolean),
        Op::Count => row(ArgumentSorts::One(ArgumentSort::Item), AnswerType::Integer),
        Op::IncludesAll => row(
            ArgumentSorts::One(ArgumentSort::Items(Kinds::Every)),
            AnswerType::Boolean,
        ),
        Op::ExcludesAll => row(
            ArgumentSorts::One(ArgumentSort::Items(Kinds::Every)),
            AnswerType::Boolean,
        ),
        Op::Including => row(
            ArgumentSorts::One(ArgumentSort::Item),
            AnswerType::Joined(kind),
        ),
        Op::Excluding => row(
            ArgumentSorts::One(ArgumentSort::Item),
            AnswerType::Items(kind),
        ),
        Op::Union => row(
            ArgumentSorts::One(ArgumentSort::Items(Kinds::Only(kind))),
            AnswerType::Joined(kind),
        ),
        Op::Flatten => row(ArgumentSorts::None, AnswerType::Innermost(kind)),
        Op::AsSet => row(ArgumentSorts::None, AnswerType::Items(Kind::Set)),
        Op::AsBag => row(ArgumentSorts::None, AnswerType::Items(Kind::Bag)),
        Op::AsSequence => row(ArgumentSorts::None, AnswerType::Items(Kind::Sequence)),
        Op::AsOrderedSet => row(ArgumentSorts::None, AnswerType::Items(Kind::OrderedSet)),
        Op::Sum => row_of(Demand::Integers, AnswerType::Integer),
        Op::Min => row_of(Demand::Ordered, AnswerType::Item),
        Op::Max => row_of(Demand::Ordered, AnswerType::Item),
        _ => on_kind(op, kind),
    }
}

/// What the operation takes and answers at a source of the sort, if it stands there.
pub fn signature(op: Op, sort: Sort) -> Option<OperationSignature>
    ensures { result ≡ table.signature op sort }
{
    match sort {
        Sort::Boolean => on_boolean(op),
        Sort::Integer => on_integer(op),
        Sort::Text => on_string(op),
        Sort::Collection(kind) => on_collection(op, kind),
    }
}
