//! The unit that is the lowest of those that are above a class.

ghost use Rattle.std.specs.Prelude.{◌≡◌, None, if◌then◌else◌, IfOk};
ghost use Rattle.qvt_types_units.specs.Choice as choice;
ghost use Rattle.qvt_types_choices.specs.Least as lows;

use qvt_base::list_fault::ListFault;
use qvt_base::seq::Seq;
use qvt_types_paths::metas::Metas;
use qvt_types_units::choice::{context_at, is_below, is_lowest, single};
use qvt_types_units::signature::Signature;
use std::alloc::Global;

/// Of two units the one whose context is the other's or below it, else the first.
pub fn lower(metas: &Metas, units: &[Signature], one: u32, other: u32) -> u32
    ensures { result ≡ lows.lower metas.now units.now one other }
{
    if one != other && is_below(metas, context_at(units, other), context_at(units, one)) {
        other
    } else {
        one
    }
}

/// Where one of the units is below each of them, such a one.
fn least(metas: &Metas, units: &[Signature], first: u32, others: &[u32]) -> u32
    ensures { result ≡ lows.least_of metas.now units.now first others.now }
{
    let mut least = first;
    for other in others {
        least = lower(metas, units, least, *other);
    }
    least
}

/// Those of the units whose context is that of this one or below it.
fn those_below(
    alloc: Global,
    metas: &Metas,
    units: &[Signature],
    number: u32,
    group: &[u32],
) -> Result<Seq<u32>, ListFault>
    ensures { IfOk result (λ ns. ns ≡ lows.those_below metas.now units.now number group.now) }
{
    let context = context_at(units, number);
    let mut numbers = Seq::new(alloc);
    for other in group {
        if is_below(metas, context_at(units, *other), context) {
            numbers.push(*other)?;
        }
    }
    Ok(numbers)
}

/// The unit, where it is below each of them and no other is.
fn lowest_if(
    alloc: Global,
    metas: &Metas,
    units: &[Signature],
    number: u32,
    group: &[u32],
) -> Result<Option<u32>, ListFault>
    ensures { IfOk result (λ n. n ≡ (if choice.is_lowest metas.now units.now group.now number then choice.single (lows.those_below metas.now units.now number group.now) else None)) }
{
    if !is_lowest(metas, units, group, number) {
        return Ok(None);
    }
    let below = those_below(alloc, metas, units, number, group)?;
    Ok(single(below.as_slice()))
}

/// The one of the units whose context is that of each or below it, in time linear in their number.
pub fn lowest(
    alloc: Global,
    metas: &Metas,
    units: &[Signature],
    group: &[u32],
) -> Result<Option<u32>, ListFault>
    ensures { IfOk result (λ n. n ≡ choice.single (choice.lowest metas.now units.now group.now)) }
{
    metas.are_well_formed();
    match group {
        [] => Ok(None),
        [first, ..] => {
            let number = least(metas, units, *first, group);
            let lowest = lowest_if(alloc, metas, units, number, group)?;
            Ok(lowest)
        }
    }
}
