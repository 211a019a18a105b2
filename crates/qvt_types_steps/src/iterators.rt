//! The iterators and their table.

ghost use Rattle.std.specs.Prelude.{◌≡◌};
ghost use Rattle.qvt_types_steps.specs.IteratorTable as table;

/// The iterators (OCL 2.4, 11.9), and `iterate` (7.6.6).
#[derive(Clone, Copy, Debug, PartialEq, Eq)]
pub enum IteratorKind {
    Select,
    Reject,
    Collect,
    CollectNested,
    Exists,
    ForAll,
    Any,
    One,
    IsUnique,
    SortedBy,
    Iterate,
    Closure,
}

/// What the items of the source have to be.
#[derive(Clone, Copy, Debug, PartialEq, Eq)]
pub enum ItemDemand {
    Every,
    Objects,
}

/// What the body has to be.
#[derive(Clone, Copy, Debug, PartialEq, Eq)]
pub enum BodyDemand {
    Every,
    Boolean,
    /// An Integer or a String.
    Key,
    /// An object of the class of the items, or a collection of these.
    SameObjects,
    /// A value of the type of the accumulator.
    Accumulated,
}

/// What is answered.
#[derive(Clone, Copy, Debug, PartialEq, Eq)]
pub enum IteratorAnswer {
    Boolean,
    /// An item of the source.
    Item,
    /// Items of the source, in a collection of its kind.
    Items,
    /// The items in the order of their keys: a Sequence from a Sequence or a Bag, else an OrderedSet.
    Sorted,
    /// The objects that are reached: an OrderedSet from ordered kinds, else a Set.
    Reached,
    /// What the bodies gave: a Sequence from ordered kinds, else a Bag.
    Bodies,
    /// The same, flattened.
    Flattened,
    Accumulator,
}

/// A line of the table.
#[derive(Clone, Copy, Debug, PartialEq, Eq)]
pub struct IteratorRow {
    pub items: ItemDemand,
    /// Whether there is an accumulator.
    pub folds: bool,
    pub body: BodyDemand,
    pub gives: IteratorAnswer,
    /// Whether the body has to be pure.
    pub is_pure: bool,
}

fn row(
    items: ItemDemand,
    folds: bool,
    body: BodyDemand,
    gives: IteratorAnswer,
    is_pure: bool,
) -> IteratorRow
    ensures { result ≡ table.row items folds body gives is_pure }
{
    IteratorRow {
        items,
        folds,
        body,
        gives,
        is_pure,
    }
}

/// What the iterator takes and answers.
pub fn row_of(iterator: IteratorKind) -> IteratorRow
    ensures { result ≡ table.row_of iterator }
{
    match iterator {
        IteratorKind::Select => row(
            ItemDemand::Every,
            false,
            BodyDemand::Boolean,
            IteratorAnswer::Items,
            true,
        ),
        IteratorKind::Reject => row(
            ItemDemand::Every,
            false,
            BodyDemand::Boolean,
            IteratorAnswer::Items,
            true,
        ),
        IteratorKind::Collect => row(
            ItemDemand::Every,
            false,
            BodyDemand::Every,
            IteratorAnswer::Flattened,
            false,
        ),
        IteratorKind::CollectNested => row(
            ItemDemand::Every,
            false,
            BodyDemand::Every,
            IteratorAnswer::Bodies,
            false,
        ),
        IteratorKind::Exists => row(
            ItemDemand::Every,
            false,
            BodyDemand::Boolean,
            IteratorAnswer::Boolean,
            true,
        ),
        IteratorKind::ForAll => row(
            ItemDemand::Every,
            false,
            BodyDemand::Boolean,
            IteratorAnswer::Boolean,
            true,
        ),
        IteratorKind::Any => row(
            ItemDemand::Every,
            false,
            BodyDemand::Boolean,
            IteratorAnswer::Item,
            true,
        ),
        IteratorKind::One => row(
            ItemDemand::Every,
            false,
            BodyDemand::Boolean,
            IteratorAnswer::Boolean,
            true,
        ),
        IteratorKind::IsUnique => row(
            ItemDemand::Every,
            false,
            BodyDemand::Every,
            IteratorAnswer::Boolean,
            true,
        ),
        IteratorKind::SortedBy => row(
            ItemDemand::Every,
            false,
            BodyDemand::Key,
            IteratorAnswer::Sorted,
            true,
        ),
        IteratorKind::Iterate => {
            row(
                ItemDemand::Every,
                true,
                BodyDemand::Accumulated,
                IteratorAnswer::Accumulator,
                true,
            )
        }
        IteratorKind::Closure => {
            row(
                ItemDemand::Objects,
                false,
                BodyDemand::SameObjects,
                IteratorAnswer::Reached,
                true,
            )
        }
    }
}

/// The iterators with a condition as their body.
#[tactic(auto, unfolding(crate::specs::IteratorTable::of_conditions))]
fn of_conditions(name: &str) -> Option<IteratorKind>
    ensures { result ≡ table.of_conditions name.now }
{
    if name == "select" {
        return Some(IteratorKind::Select);
    }
    if name == "reject" {
        return Some(IteratorKind::Reject);
    }
    if name == "exists" {
        return Some(IteratorKind::Exists);
    }
    if name == "forAll" {
        return Some(IteratorKind::ForAll);
    }
    if name == "any" {
        return Some(IteratorKind::Any);
    }
    if name == "one" {
        return Some(IteratorKind::One);
    }
    None
}

/// The iterators with other bodies.
#[tactic(auto, unfolding(crate::specs::IteratorTable::of_bodies))]
fn of_bodies(name: &str) -> Option<IteratorKind>
    ensures { result ≡ table.of_bodies name.now }
{
    if name == "collect" {
        return Some(IteratorKind::Collect);
    }
    if name == "collectNested" {
        return Some(IteratorKind::CollectNested);
    }
    if name == "isUnique" {
        return Some(IteratorKind::IsUnique);
    }
    if name == "sortedBy" {
        return Some(IteratorKind::SortedBy);
    }
    if name == "iterate" {
        return Some(IteratorKind::Iterate);
    }
    if name == "closure" {
        return Some(IteratorKind::Closure);
    }
    None
}

/// The iterator of this name, None where there is none.
pub fn iterator_named(name: &str) -> Option<IteratorKind>
    ensures { result ≡ table.iterator_named name.now }
{
    if let Some(iterator) = of_conditions(name) {
        return Some(iterator);
    }
    of_bodies(name)
}
