//! The numbers of units by their names.

ghost use Rattle.std.specs.Prelude.{◌≡◌, ◌++◌, ◌∷◌, [], ◌<◌, ℕ, List, if◌then◌else◌, IfOk};
ghost use Rattle.qvt_types_units.specs.Numbers.{numbers_where};
ghost use Rattle.qvt_types_groups.specs.Lists as under;

use crate::class_keys::is_called;
use crate::number_lists::NumberLists;
use qvt_base::list_fault::ListFault;
use qvt_types_units::numbers::has_context;
use qvt_types_units::signature::{HeadClass, Signature};
use std::alloc::Global;

fn is_wanted(with_context: bool, context: HeadClass) -> bool
    ensures { result ≡ under.is_wanted with_context context }
{
    if with_context {
        has_context(context)
    } else {
        !has_context(context)
    }
}

fn is_one(maps: bool, with_context: bool, unit: &Signature) -> bool
    ensures { result ≡ under.is_one maps with_context unit.now }
{
    is_called(maps, unit.sort) && is_wanted(with_context, unit.context)
}

/// The lists with the number of the unit under its name, where it is one of those that are wanted.
fn with_unit(
    alloc: Global,
    maps: bool,
    with_context: bool,
    lists: NumberLists,
    number: u32,
    unit: &Signature,
) -> Result<NumberLists, ListFault>
    ensures { IfOk result (λ all. (name : List ℕ) → under.numbers_under all name ≡ under.numbers_under lists name ++ (if under.is_listed maps with_context name unit.now then number ∷ [] else [])) }
{
    if is_one(maps, with_context, unit) {
        let all = lists.with(alloc, unit.name.as_str(), number)?;
        Ok(all)
    } else {
        Ok(lists)
    }
}

/// The numbers of the mappings, or of the helpers and queries, with a context or without, by their names. It is refused as out of
/// memory where they do not fit 32 bits.
pub fn lists_of(
    alloc: Global,
    maps: bool,
    with_context: bool,
    units: &[Signature],
) -> Result<NumberLists, ListFault>
    ensures { IfOk result (λ all. (name : List ℕ) → under.numbers_under all name ≡ numbers_where (under.is_listed maps with_context name) 0 units.now) }
{
    let Ok(count) = u32::try_from(units.len()) else {
        return Err(ListFault::NoMemory);
    };
    let mut all = NumberLists::new(alloc);
    for number in 0..count {
        all = with_unit(
            alloc,
            maps,
            with_context,
            all,
            number,
            &units[number as usize],
        )?;
    }
    Ok(all)
}
