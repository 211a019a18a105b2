//! Units that take the same and answer objects of classes of which all are above one class. A unit that asks all that the first of
//! these asks, and answers objects of that class or one below it, asks all that they ask.

ghost use Rattle.std.specs.Prelude.{◌≡◌, ◌&&◌, List, length, nat_lt};
ghost use Rattle.std.specs.List.{list_all};
ghost use Rattle.qvt_types_groups.specs.Numbers.{unit_at};
ghost use Rattle.qvt_types_above.specs.Bounds as bounds;

use crate::covers::covers_at;
use crate::shapes::{same_sort, same_types};
use qvt_base::numbers::ClassNo;
use qvt_metas::tables::supers_at;
use qvt_types_data::ty::Ty;
use qvt_types_groups::signature::Signature;
use qvt_types_paths::metas::Metas;

/// Whether the answer is an object of the class or of one below it.
fn answers_below(metas: &Metas, answer: &Option<Ty>, class: ClassNo) -> bool
    ensures { result ≡ bounds.answers_below metas.now answer.now class.0 }
{
    match answer {
        None => false,
        Some(Ty::Class(answer)) => metas.descends(*answer, class),
        Some(_) => false,
    }
}

/// Whether it is one of the class or of one above it.
fn answers_above(metas: &Metas, answer: &Option<Ty>, class: ClassNo) -> bool
    ensures { result ≡ bounds.answers_above metas.now answer.now class.0 }
{
    match answer {
        None => false,
        Some(Ty::Class(answer)) => metas.descends(class, *answer),
        Some(_) => false,
    }
}

/// Whether the second unit takes what the first does and answers objects of the class or of one above it.
fn is_like(metas: &Metas, first: &Signature, other: &Signature, class: ClassNo) -> bool
    ensures { result ≡ bounds.is_like metas.now first.now other.now class.0 }
{
    same_sort(first.sort, other.sort)
        && same_types(first.params.as_slice(), other.params.as_slice())
        && answers_above(metas, &other.answer, class)
}

fn is_like_at(
    metas: &Metas,
    units: &[Signature],
    first: &Signature,
    number: u32,
    class: ClassNo,
) -> bool
    ensures { result ≡ bounds.is_like_at metas.now units.now first.now class.0 number }
{
    let at = number as usize;
    at < units.len() && is_like(metas, first, &units[at], class)
}

fn are_like(
    metas: &Metas,
    units: &[Signature],
    first: &Signature,
    list: &[u32],
    class: ClassNo,
) -> bool
    ensures { result ≡ list_all (bounds.is_like_at metas.now units.now first.now class.0) list.now }
{
    list.iter()
        .all(|number| is_like_at(metas, units, first, *number, class))
}

/// Whether all of the list take what the first does, and answer objects of the class or of one above it.
pub fn are_bounded(metas: &Metas, units: &[Signature], list: &[u32], class: ClassNo) -> bool
    ensures { result ≡ bounds.are_bounded metas.now units.now list.now class.0 }
{
    match list {
        [] => false,
        [first, ..] => {
            let at = *first as usize;
            at < units.len() && are_like(metas, units, &units[at], list, class)
        }
    }
}

fn answers_below_at(metas: &Metas, units: &[Signature], number: u32, class: ClassNo) -> bool
    ensures { result ≡ (nat_lt number (length units.now) && bounds.answers_below metas.now (unit_at units.now number).answer class.0) }
{
    let at = number as usize;
    at < units.len() && answers_below(metas, &units[at].answer, class)
}

/// Whether the unit asks all that the first of the list asks, and answers objects of the class or of one below it.
pub fn asks_bounded(
    metas: &Metas,
    units: &[Signature],
    number: u32,
    list: &[u32],
    class: ClassNo,
) -> bool
    ensures { result ≡ bounds.asks_bounded metas.now units.now number list.now class.0 }
{
    match list {
        [] => false,
        [first, ..] => {
            covers_at(metas, units, number, *first) && answers_below_at(metas, units, number, class)
        }
    }
}

/// How many superclasses a class may have at most, and how many steps up are made at most, where a bound is looked for: with more it
/// would take longer than it spares.
const MOST_SUPERS: usize = 8;

const MOST_STEPS: u32 = 16;

/// A superclass by which the list is bounded too.
fn higher_bound(
    metas: &Metas,
    units: &[Signature],
    list: &[u32],
    supers: &[ClassNo],
) -> Option<ClassNo>
    ensures { IfSome result (λ e. bounds.are_bounded metas.now units.now list.now e.0 ≡ true) }
{
    if supers.len() > MOST_SUPERS {
        return None;
    }
    for class in supers {
        if are_bounded(metas, units, list, *class) {
            return Some(*class);
        }
    }
    None
}

/// Above a class by which the list is bounded another one, so that more units answer what is below it.
fn highest_bound(metas: &Metas, units: &[Signature], list: &[u32], class: ClassNo) -> ClassNo
    requires { bounds.are_bounded metas.now units.now list.now class.0 ≡ true }
    ensures { bounds.are_bounded metas.now units.now list.now result.0 ≡ true }
{
    let mut bound = class;
    for step in 0..MOST_STEPS {
        let supers = supers_at(metas.class_infos(), bound.0);
        match higher_bound(metas, units, list, supers) {
            None => return bound,
            Some(higher) => bound = higher,
        }
    }
    bound
}

ghost use Rattle.std.specs.Prelude.{true, IfSome};

/// A class by which the list is bounded, at the class of which the unit answers objects or above it.
fn bound_from(
    metas: &Metas,
    units: &[Signature],
    list: &[u32],
    answer: &Option<Ty>,
) -> Option<ClassNo>
    ensures { IfSome result (λ e. bounds.are_bounded metas.now units.now list.now e.0 ≡ true) }
{
    match answer {
        None => None,
        Some(Ty::Class(class)) => {
            if are_bounded(metas, units, list, *class) {
                Some(highest_bound(metas, units, list, *class))
            } else {
                None
            }
        }
        Some(_) => None,
    }
}

/// The same of a unit by its number.
pub fn bound_for(metas: &Metas, units: &[Signature], list: &[u32], number: u32) -> Option<ClassNo>
    ensures { IfSome result (λ e. bounds.are_bounded metas.now units.now list.now e.0 ≡ true) }
{
    let at = number as usize;
    if at < units.len() {
        bound_from(metas, units, list, &units[at].answer)
    } else {
        None
    }
}
