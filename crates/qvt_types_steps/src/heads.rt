//! The Heads of iterators.

ghost use Rattle.std.specs.Prelude.{◌≡◌, IfOk, Some};
ghost use Rattle.qvt_types_words.specs.Rulings as rulings;
ghost use Rattle.qvt_types_words.specs.Types.{conforms as conforms_to};
ghost use Rattle.qvt_types_steps.specs.Iterators as iterators;

use crate::calls::source_item;
use qvt_base::copied::Copied;
use qvt_base::list_fault::ListFault;
use qvt_types_data::refusal::RefusalKind;
use qvt_types_data::ty::{Ty, copied};
use qvt_types_words::metas::Metas;
use qvt_types_words::types::conforms;
use std::alloc::Global;

/// The Head of an arrow, by the types of its parts.
#[derive(Debug)]
pub enum Heading {
    /// There is none.
    Missing,
    /// An iterator.
    Plain,
    /// An iterator and an accumulator of this type.
    Folding(Ty),
    /// A part of it has no type.
    Untyped,
}

impl Drop for Heading {
    fn drop(self) {
        match self {
            Heading::Missing => {}
            Heading::Plain => {}
            Heading::Folding(ty) => {}
            Heading::Untyped => {}
        }
    }
}

/// The type of what an arrow and a `forEach` go over.
pub fn item_type(alloc: Global, source: &Option<Ty>) -> Result<Option<Ty>, ListFault>
    ensures { IfOk result (λ o. o ≡ iterators.item_type source.now) }
{
    match source {
        None => Ok(None),
        Some(t) => Ok(Some(source_item(t).copy(alloc)?)),
    }
}

/// The type of an iterator or of the variable of a `forEach`, with or without a declared type.
pub fn iterator_type(
    alloc: Global,
    has_kind: bool,
    kind: &Option<Ty>,
    items: &Option<Ty>,
) -> Result<Option<Ty>, ListFault>
    ensures { IfOk result (λ o. o ≡ iterators.iterator_type has_kind kind.now items.now) }
{
    if has_kind {
        copied(alloc, kind)
    } else {
        copied(alloc, items)
    }
}

/// WrongType, where that does not conform.
fn conforming(metas: &Metas, t: &Ty, kind: &Ty) -> Option<RefusalKind>
    ensures { result ≡ rulings.wrong_unless (conforms_to metas.now t.now kind.now) }
{
    if conforms(metas, t, kind) {
        None
    } else {
        Some(RefusalKind::WrongType)
    }
}

/// What is told where an iterator or the variable of a `forEach` is declared, with or without a type.
pub fn iterator_wrong(
    metas: &Metas,
    has_kind: bool,
    kind: &Option<Ty>,
    items: &Option<Ty>,
) -> Option<RefusalKind>
    ensures { result ≡ iterators.iterator_wrong metas.now has_kind kind.now items.now }
{
    if !has_kind {
        return None;
    }
    let Some(kind) = kind else {
        return None;
    };
    let Some(items) = items else {
        return None;
    };
    conforming(metas, items, kind)
}

/// What is told of the first value of an accumulator.
pub fn accumulator_wrong(
    metas: &Metas,
    kind: &Option<Ty>,
    first: &Option<Ty>,
) -> Option<RefusalKind>
    ensures { result ≡ iterators.accumulator_wrong metas.now kind.now first.now }
{
    let Some(kind) = kind else {
        return None;
    };
    let Some(first) = first else {
        return None;
    };
    conforming(metas, first, kind)
}

/// A Head with an iterator alone.
pub fn plain_head(metas: &Metas, has_kind: bool, kind: &Option<Ty>, items: &Option<Ty>) -> Heading
    ensures { result ≡ iterators.plain_head metas.now has_kind kind.now items.now }
{
    if !has_kind {
        return Heading::Plain;
    }
    let Some(kind) = kind else {
        return Heading::Untyped;
    };
    let Some(items) = items else {
        return Heading::Plain;
    };
    if conforms(metas, items, kind) {
        Heading::Plain
    } else {
        Heading::Untyped
    }
}

/// Whether a part of the Head has no type.
pub fn is_untyped(heading: &Heading) -> bool
    ensures { result ≡ iterators.is_untyped heading.now }
{
    match heading {
        Heading::Untyped => true,
        _ => false,
    }
}

/// The Head with an accumulator behind its iterator.
pub fn folding_head(
    alloc: Global,
    metas: &Metas,
    heading: &Heading,
    kind: &Option<Ty>,
    first: &Option<Ty>,
) -> Result<Heading, ListFault>
    ensures { IfOk result (λ h. h ≡ iterators.folding_head metas.now heading.now kind.now first.now) }
{
    if is_untyped(heading) {
        return Ok(Heading::Untyped);
    }
    let Some(kind) = kind else {
        return Ok(Heading::Untyped);
    };
    let Some(first) = first else {
        return Ok(Heading::Untyped);
    };
    if conforms(metas, first, kind) {
        Ok(Heading::Folding(kind.copy(alloc)?))
    } else {
        Ok(Heading::Untyped)
    }
}
