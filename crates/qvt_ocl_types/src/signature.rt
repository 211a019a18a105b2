//! What an operation takes and what it answers, by types.

use qvt_value::value::Kind;

/// The sorts of sources that have operations of their own.
#[derive(Clone, Copy, Debug, PartialEq, Eq)]
pub enum Sort {
    Boolean,
    Integer,
    Text,
    Collection(Kind),
}

/// Which kinds an argument may have that is a collection.
#[derive(Clone, Copy, Debug, PartialEq, Eq)]
pub enum Kinds {
    Every,
    SetOrBag,
    Only(Kind),
}

/// What an argument has to be.
#[derive(Clone, Copy, Debug, PartialEq, Eq)]
pub enum ArgumentSort {
    Integer,
    Text,
    /// A value whose type joins with the item type of the source.
    Item,
    /// A collection whose item type joins with that of the source.
    Items(Kinds),
}

/// What the arguments have to be, in their order.
#[derive(Clone, Copy, Debug, PartialEq, Eq)]
pub enum ArgumentSorts {
    None,
    One(ArgumentSort),
    Two(ArgumentSort, ArgumentSort),
}

/// What the items of the source have to be.
#[derive(Clone, Copy, Debug, PartialEq, Eq)]
pub enum Demand {
    Any,
    Integers,
    /// Integers, or Strings.
    Ordered,
}

/// The type of the answer.
#[derive(Clone, Copy, Debug, PartialEq, Eq)]
pub enum AnswerType {
    Boolean,
    Integer,
    Text,
    /// A Sequence of Strings.
    Texts,
    /// The item type of the source.
    Item,
    /// The kind of the source's items.
    Items(Kind),
    /// The kind of the source's innermost items.
    Innermost(Kind),
    /// The kind of the join of the item types.
    Joined(Kind),
    /// The source's items, in a Bag where source and argument are Bags, else in a Set. The source has this kind.
    Common(Kind),
}

/// What an operation takes and what it answers.
#[derive(Clone, Copy, Debug, PartialEq, Eq)]
pub struct OperationSignature {
    pub demand: Demand,
    pub params: ArgumentSorts,
    pub answer: AnswerType,
}
