//! The choice of a unit by the class of an object.

ghost use Rattle.std.specs.Prelude.{◌≡◌, IfOk};
ghost use Rattle.qvt_types_units.specs.Choice as choice;

use crate::signature::{HeadClass, Signature};
use qvt_base::list_fault::ListFault;
use qvt_base::numbers::ClassNo;
use qvt_base::seq::Seq;
use qvt_types_words::metas::Metas;
use std::alloc::Global;

/// What a call by a name finds for objects of a static class.
#[derive(Clone, Copy, Debug, PartialEq, Eq)]
pub enum FoundUnit {
    /// There is no unit of the name, or none whose context is above the class.
    NoUnit,
    /// The context of a unit of the name is unknown.
    Untyped,
    /// The class, or a concrete class below it, has no single choice.
    Unclear,
    /// The unit that is chosen for the class, by its number.
    Chosen(u32),
}

/// Whether the context class is this class or above it.
fn is_context_above(metas: &Metas, context: HeadClass, class: ClassNo) -> bool
    ensures { result ≡ choice.is_context_above metas.now context class.0 }
{
    match context {
        HeadClass::Missing => false,
        HeadClass::Unknown => false,
        HeadClass::Known(above) => metas.descends(class, above),
    }
}

/// Whether the first context class is the second or below it.
pub fn is_below(metas: &Metas, one: HeadClass, other: HeadClass) -> bool
    ensures { result ≡ choice.is_below metas.now one other }
{
    match one {
        HeadClass::Missing => false,
        HeadClass::Unknown => false,
        HeadClass::Known(class) => is_context_above(metas, other, class),
    }
}

/// The context of a unit by its number.
pub fn context_at(units: &[Signature], number: u32) -> HeadClass
    ensures { result ≡ choice.context_at units.now number }
{
    let at = number as usize;
    if at < units.len() {
        units[at].context
    } else {
        HeadClass::Missing
    }
}

/// Whether what stands there names no class.
pub fn is_unknown(context: HeadClass) -> bool
    ensures { result ≡ choice.is_unknown context }
{
    match context {
        HeadClass::Missing => false,
        HeadClass::Unknown => true,
        HeadClass::Known(_) => false,
    }
}

/// Those of the units that an object of the class may be handed to.
pub fn candidates(
    alloc: Global,
    metas: &Metas,
    units: &[Signature],
    group: &[u32],
    class: ClassNo,
) -> Result<Seq<u32>, ListFault>
    ensures { IfOk result (λ ns. ns ≡ choice.candidates metas.now units.now group.now class.0) }
{
    let mut numbers = Seq::new(alloc);
    for number in group {
        if is_context_above(metas, context_at(units, *number), class) {
            numbers.push(*number)?;
        }
    }
    Ok(numbers)
}

/// Whether the context of the unit is that of each of these or below it.
pub fn is_lowest(metas: &Metas, units: &[Signature], group: &[u32], number: u32) -> bool
    ensures { result ≡ choice.is_lowest metas.now units.now group.now number }
{
    let context = context_at(units, number);
    group.iter().all(|other| is_below(metas, context, context_at(units, *other)))
}

/// Those of the units whose context is that of each or below it.
fn lowest(
    alloc: Global,
    metas: &Metas,
    units: &[Signature],
    group: &[u32],
) -> Result<Seq<u32>, ListFault>
    ensures { IfOk result (λ ns. ns ≡ choice.lowest metas.now units.now group.now) }
{
    let mut numbers = Seq::new(alloc);
    for number in group {
        if is_lowest(metas, units, group, *number) {
            numbers.push(*number)?;
        }
    }
    Ok(numbers)
}

/// The number, where it is the only one.
pub fn single(numbers: &[u32]) -> Option<u32>
    ensures { result ≡ choice.single numbers.now }
{
    match numbers {
        [number] => Some(*number),
        _ => None,
    }
}

/// The one unit that is chosen among these for objects of the class.
#[tactic(auto, unfolding(crate::specs::Choice::chosen))]
pub fn chosen(
    alloc: Global,
    metas: &Metas,
    units: &[Signature],
    group: &[u32],
    class: ClassNo,
) -> Result<Option<u32>, ListFault>
    ensures { IfOk result (λ n. n ≡ choice.chosen metas.now units.now group.now class.0) }
{
    let candidates = candidates(alloc, metas, units, group, class)?;
    let lowest = lowest(alloc, metas, units, candidates.as_slice())?;
    Ok(single(lowest.as_slice()))
}
