//! What is known where a node stands.

ghost use Rattle.std.specs.Prelude.{◌≡◌};
ghost use Rattle.qvt_typing.specs.Context as known;
ghost use Rattle.qvt_typing.specs.Phrases as phrase;
ghost use Rattle.qvt_types_context.specs.Seen.{heads_seen, seen};

use qvt_types_data::note::Reading;
use qvt_types_data::ruling::Ruling;
use qvt_types_data::ty::Ty;
use qvt_types_groups::classes::is_typed;
use qvt_types_groups::metas::Metas;
use qvt_types_groups::model_types::TypeNames;
use qvt_types_groups::models::Models;
use qvt_types_groups::units::Units;
use qvt_typing::classes::ClassPart;
use qvt_typing::iterators::{IteratorKind, row_of};
use std::alloc::Global;

/// What the heads of a transformation declare.
#[derive(Clone, Copy)]
pub struct Heads<'a> {
    /// The metamodels of the job.
    pub given: &'a Metas,
    pub types: &'a TypeNames,
    pub models: &'a Models,
    /// The metamodels with Element and the intermediate classes, and the units by their names.
    pub units: &'a Units,
    /// The number of the first feature of an intermediate class.
    pub first: u32,
    /// Which features of intermediate classes have a type, from the first on.
    pub typed: &'a [bool],
}

/// What a `return` may have.
#[derive(Clone, Copy)]
pub enum Returns<'a> {
    NoValue,
    /// A value of the answer type, if that is known.
    Value(&'a Option<Ty>),
    /// No `return` may stand there.
    Never,
}

/// What is known where a node stands.
#[derive(Clone, Copy)]
pub struct Context<'a> {
    /// Where memory is taken.
    pub alloc: Global,
    pub heads: Heads<'a>,
    /// Nothing is made or changed.
    pub pure: bool,
    /// Nor is a unit or the trace looked at.
    pub plain: bool,
    pub returns: Returns<'a>,
    /// The class of `self`.
    pub itself: ClassPart,
    /// The class of `result`.
    pub result: ClassPart,
    pub sets_result: bool,
    /// The class of the innermost object expression.
    pub object: ClassPart,
    /// The class of the object whose properties bare names mean else.
    pub owner: ClassPart,
}

fn is_typed_reading(heads: &Heads<'_>, reading: &Reading) -> bool
    ensures { result ≡ known.is_typed_reading (heads_seen heads.now) reading.now }
{
    match reading {
        Reading::Feature(feature) => is_typed(heads.first, heads.typed, *feature),
        _ => true,
    }
}

/// The same ruling, but of a property whose type is unknown, which leaves what reads it without a type.
pub fn unless_untyped(heads: &Heads<'_>, ruling: Ruling) -> Ruling
    ensures { result ≡ known.unless_untyped (heads_seen heads.now) ruling }
{
    let keeps = match &ruling {
        Ruling::Holds(read) => is_typed_reading(heads, &read.reading),
        _ => true,
    };
    if keeps { ruling } else { Ruling::Silent }
}

/// What is known in the body of an iterator, if the name before it is that of one.
pub fn body_context<'a>(x: &Context<'a>, iterator: Option<IteratorKind>) -> Context<'a>
    ensures { seen result ≡ phrase.body_context iterator (seen x.now) }
{
    match iterator {
        None => *x,
        Some(iterator) => {
            if row_of(iterator).is_pure {
                Context { pure: true, ..*x }
            } else {
                *x
            }
        }
    }
}
