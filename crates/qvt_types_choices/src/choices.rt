//! What calls by a name find for objects of each class.

ghost use Rattle.std.specs.Prelude.{◌≡◌, ◌∷◌, [], eqb, length, IfOk};
ghost use Rattle.std.specs.List.{IsDistinct};
ghost use Rattle.qvt_metas.specs.Tables.{EndsWithin};
ghost use Rattle.qvt_types_units.specs.Choice as choice;
ghost use Rattle.qvt_types_choices.specs.Sets.{AreSets};
ghost use Rattle.qvt_types_choices.specs.ByClass as by_class;

use crate::class_choices::{ClassChoices, all_choices, class_order};
use crate::class_sets::{ClassSets, set_below};
use crate::only::choice_of;
use qvt_base::list_fault::ListFault;
use qvt_base::numbers::ClassNo;
use qvt_metas::row::Row;
use qvt_rows::sets::overlap;
use qvt_types_paths::metas::Metas;
use qvt_types_units::choice::{FoundUnit, context_at, is_unknown};
use qvt_types_units::signature::{HeadClass, Signature};
use std::alloc::Global;

/// Whether the context of one of the units is unknown.
pub fn is_unsure(units: &[Signature], group: &[u32]) -> bool
    ensures { result ≡ choice.is_unsure units.now group.now }
{
    group
        .iter()
        .any(|number| is_unknown(context_at(units, *number)))
}

/// Whether one of these classes is the class or below it.
fn are_some_below(metas: &Metas, sets: &ClassSets, marked: &Row, class: ClassNo) -> bool
    requires sets { AreSets metas.now sets.now }
    requires within { EndsWithin (length metas.now.classes) marked.now }
    ensures { result ≡ by_class.some_below metas.now marked.now class.0 }
{
    overlap(metas.class_count(), marked, set_below(metas, sets, class))
}

/// What is found for the class with this choice, where these are the classes without a single one.
pub fn found(
    metas: &Metas,
    sets: &ClassSets,
    is_unsure: bool,
    stuck: &Row,
    class: ClassNo,
    choice: FoundUnit,
) -> FoundUnit
    requires sets { AreSets metas.now sets.now }
    requires within { EndsWithin (length metas.now.classes) stuck.now }
    ensures { result ≡ by_class.settled is_unsure (by_class.some_below metas.now stuck.now class.0) choice }
{
    if is_unsure {
        return FoundUnit::Untyped;
    }
    match choice {
        FoundUnit::Chosen(_) if are_some_below(metas, sets, stuck, class) => FoundUnit::Unclear,
        _ => choice,
    }
}

/// What is found where there is one unit alone.
pub fn found_alone(metas: &Metas, units: &[Signature], number: u32, class: ClassNo) -> FoundUnit
    ensures { result ≡ choice.looked_up metas.now units.now (number ∷ []) class.0 }
{
    metas.are_well_formed();
    match context_at(units, number) {
        HeadClass::Missing => FoundUnit::NoUnit,
        HeadClass::Unknown => FoundUnit::Untyped,
        HeadClass::Known(above) => {
            if metas.descends(class, above) {
                FoundUnit::Chosen(number)
            } else {
                FoundUnit::NoUnit
            }
        }
    }
}

/// What is found for the class among several units.
pub fn look_up(
    alloc: Global,
    metas: &Metas,
    units: &[Signature],
    sets: &ClassSets,
    group: &[u32],
    class: ClassNo,
) -> Result<FoundUnit, ListFault>
    requires sets { AreSets metas.now sets.now }
    requires distinct { IsDistinct eqb group.now }
    ensures { IfOk result (λ f. f ≡ choice.looked_up metas.now units.now group.now class.0) }
{
    metas.are_well_formed();
    let order = class_order(alloc, metas)?;
    let ClassChoices { stuck, .. } = all_choices(
        alloc,
        metas,
        units,
        group,
        order.classes.as_slice(),
    )?;
    let choice = choice_of(metas, units, group, class);
    let is_unsure = is_unsure(units, group);
    Ok(found(metas, sets, is_unsure, &stuck, class, choice))
}
