//! Resolves.

ghost use Rattle.std.specs.Prelude.{◌≡◌, IfOk};
ghost use Rattle.qvt_types_words.specs.Rulings as rulings;
ghost use Rattle.qvt_types_steps.specs.Resolving as resolves;

use crate::arrows::is_object;
use crate::calls::{is_single_type, source_item};
use crate::classes::{ClassPart, is_untyped};
use qvt_base::copied::Copied;
use qvt_base::list_fault::ListFault;
use qvt_base::numbers::ClassNo;
use qvt_tree_types::words::{CollKind, ResolveWord};
use qvt_types_data::boxed::Boxed;
use qvt_types_data::note::Reading;
use qvt_types_data::refusal::RefusalKind;
use qvt_types_data::ruling::{Read, Ruling};
use qvt_types_data::ty::Ty;
use qvt_types_words::metas::Metas;
use qvt_types_words::types::conforms;
use std::alloc::Global;

/// How a call stands to its source.
#[derive(Clone, Copy, Debug, PartialEq, Eq)]
pub enum Joint {
    /// It has none.
    Sourceless,
    Dot,
    Arrow,
}

/// The class that is looked for in a form that names a mapping and has no filter, by the mapping's result class, the target, and its
/// context class.
pub fn class_within(word: ResolveWord, target: ClassPart, context: ClassPart) -> ClassPart
    ensures { result ≡ resolves.class_within word target context }
{
    if word.is_inverse() { context } else { target }
}

/// The type of a resolve that looks for objects of the class.
fn resolve_type(alloc: Global, word: ResolveWord, class: ClassNo) -> Result<Ty, ListFault>
    ensures { IfOk result (λ t. t ≡ resolves.resolve_type word class) }
{
    if word.is_one() {
        Ok(Ty::Class(class))
    } else {
        Ok(Ty::Coll(CollKind::Sequence, Boxed::new(alloc, Ty::Class(class))?))
    }
}

fn typed(t: Ty) -> Ruling
    ensures { result ≡ rulings.typed t }
{
    Ruling::Holds(Read::plain(Reading::Nothing, Some(t)))
}

/// What is ruled of a resolve whose source is right.
fn looked_for(alloc: Global, word: ResolveWord, part: ClassPart) -> Result<Ruling, ListFault>
    ensures { IfOk result (λ r. r ≡ resolves.looked_for word part) }
{
    match part {
        ClassPart::Class(class) => Ok(typed(resolve_type(alloc, word, class)?)),
        ClassPart::Missing => Ok(Ruling::Fails(RefusalKind::WrongType)),
        ClassPart::Untyped => Ok(Ruling::Silent),
    }
}

/// Whether the source is an object, null, or a collection of these.
fn is_source(t: &Ty) -> bool
    ensures { result ≡ resolves.is_source t.now }
{
    is_object(source_item(t))
}

/// What is ruled of a resolve over this source.
fn resolve_over(
    alloc: Global,
    word: ResolveWord,
    t: &Ty,
    part: ClassPart,
) -> Result<Ruling, ListFault>
    ensures { IfOk result (λ r. r ≡ resolves.resolve_over word t.now part) }
{
    if is_untyped(part) {
        return Ok(Ruling::Silent);
    }
    if is_source(t) {
        looked_for(alloc, word, part)
    } else {
        Ok(Ruling::Fails(RefusalKind::WrongType))
    }
}

/// What is ruled of a resolve behind a source or without one, by the class that it looks for.
pub fn resolve(
    alloc: Global,
    joint: Joint,
    word: ResolveWord,
    source: &Option<Ty>,
    part: ClassPart,
) -> Result<Ruling, ListFault>
    ensures { IfOk result (λ r. r ≡ resolves.resolve joint word source.now part) }
{
    match joint {
        Joint::Sourceless => looked_for(alloc, word, part),
        Joint::Dot => match source {
            None => Ok(Ruling::Silent),
            Some(t) => resolve_over(alloc, word, t, part),
        },
        Joint::Arrow => match source {
            None => Ok(Ruling::Silent),
            Some(t) => {
                let ruling = resolve_over(alloc, word, t, part)?;
                Ok(ruling.wrapped(is_single_type(t)))
            }
        },
    }
}

/// What is ruled of a filter by its class and its condition, if it has one.
pub fn filter(
    alloc: Global,
    metas: &Metas,
    kind: &Option<Ty>,
    has_condition: bool,
    condition: &Option<Ty>,
) -> Result<Ruling, ListFault>
    ensures { IfOk result (λ r. r ≡ resolves.filter metas.now kind.now has_condition condition.now) }
{
    let Some(kind) = kind else {
        return Ok(Ruling::Silent);
    };
    if !has_condition {
        return Ok(typed(kind.copy(alloc)?));
    }
    let Some(condition) = condition else {
        return Ok(Ruling::Silent);
    };
    if conforms(metas, condition, &Ty::Boolean) {
        Ok(typed(kind.copy(alloc)?))
    } else {
        Ok(Ruling::Fails(RefusalKind::WrongType))
    }
}
