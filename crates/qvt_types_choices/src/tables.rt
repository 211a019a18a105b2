//! What is told once of the units of a name, and what calls find by it.

ghost use Rattle.std.specs.Prelude.{◌≡◌, eqb, false, IfOk, IfSome};
ghost use Rattle.std.specs.List.{IsDistinct};
ghost use Rattle.qvt_types_units.specs.Choice as choice;
ghost use Rattle.qvt_types_choices.specs.Sets.{AreSets};
ghost use Rattle.qvt_types_choices.specs.Tables.{TellsOf};

use crate::choices::{found, is_unsure};
use crate::class_choices::{ClassChoices, all_choices};
use crate::class_sets::ClassSets;
use crate::only::choice_by_stuck;
use crate::stuck::set_of_stuck;
use qvt_base::list_fault::ListFault;
use qvt_base::numbers::ClassNo;
use qvt_metas::row::Row;
use qvt_types_paths::metas::Metas;
use qvt_types_units::choice::FoundUnit;
use qvt_types_units::signature::Signature;
use std::alloc::Global;

/// So many units of a name are few: one more than their number has seven binary digits. A call looks at each of a few. Of many the
/// choice for each class is made once, which takes as long as some calls, and a call looks at one.
const MOST_FEW: usize = 126;

/// What is told once of the units of a name.
#[derive(Drop)]
pub enum GroupTable {
    /// Nothing.
    Untold,
    /// The context of one of them is unknown.
    Unsure,
    /// Of a few the set of the concrete classes that some of them are above and that have no single choice.
    Stuck(Row),
    /// Of many the choice for each class as well.
    Each(ClassChoices),
}

/// What is told of the units of a name, by an order of the classes.
pub fn group_table(
    alloc: Global,
    metas: &Metas,
    units: &[Signature],
    sets: &ClassSets,
    group: &[u32],
    order: &[u32],
) -> Result<GroupTable, ListFault>
    requires sets { AreSets metas.now sets.now }
    requires distinct { IsDistinct eqb group.now }
    ensures { IfOk result (TellsOf metas.now units.now group.now) }
{
    if group.len() < 2 {
        return Ok(GroupTable::Untold);
    }
    if is_unsure(units, group) {
        return Ok(GroupTable::Unsure);
    }
    if group.len() <= MOST_FEW {
        let stuck = set_of_stuck(alloc, metas, units, sets, group)?;
        return Ok(GroupTable::Stuck(stuck));
    }
    let choices = all_choices(alloc, metas, units, group, order)?;
    Ok(GroupTable::Each(choices))
}

/// What is found for the class by a few units, where these are the classes without a single choice.
fn found_by_few(
    metas: &Metas,
    units: &[Signature],
    sets: &ClassSets,
    group: &[u32],
    stuck: &Row,
    class: ClassNo,
) -> FoundUnit
    requires sets { AreSets metas.now sets.now }
    requires distinct { IsDistinct eqb group.now }
    requires sure { is_unsure units.now group.now ≡ false }
    requires stuck { IsSetOf metas.now (is_stuck metas.now units.now group.now) stuck.now }
    ensures { result ≡ choice.looked_up metas.now units.now group.now class.0 }
{
    metas.are_well_formed();
    let choice = choice_by_stuck(metas, units, group, stuck, class);
    found(metas, sets, false, stuck, class, choice)
}

ghost use Rattle.qvt_types_units.specs.Choice.{is_unsure};
ghost use Rattle.qvt_types_choices.specs.Sets.{IsSetOf};
ghost use Rattle.qvt_types_choices.specs.Stuck.{is_stuck};

/// What is found for the class by the choice for each, if that tells it.
fn found_by_many(
    metas: &Metas,
    units: &[Signature],
    sets: &ClassSets,
    group: &[u32],
    choices: &ClassChoices,
    class: ClassNo,
) -> Option<FoundUnit>
    requires sets { AreSets metas.now sets.now }
    requires sure { is_unsure units.now group.now ≡ false }
    requires chosen { AreChosen metas.now units.now group.now choices.now }
    ensures { IfSome result (λ f. f ≡ choice.looked_up metas.now units.now group.now class.0) }
{
    metas.are_well_formed();
    match choices.each.as_slice().get(class.0 as usize) {
        None => None,
        Some(choice) => Some(found(metas, sets, false, &choices.stuck, class, *choice)),
    }
}

ghost use Rattle.qvt_types_choices.specs.ByClass.{AreChosen};

/// What is found for the class by what is told, if that tells it.
pub fn found_in(
    metas: &Metas,
    units: &[Signature],
    sets: &ClassSets,
    group: &[u32],
    table: &GroupTable,
    class: ClassNo,
) -> Option<FoundUnit>
    requires sets { AreSets metas.now sets.now }
    requires distinct { IsDistinct eqb group.now }
    requires told { TellsOf metas.now units.now group.now table.now }
    ensures { IfSome result (λ f. f ≡ choice.looked_up metas.now units.now group.now class.0) }
{
    match table {
        GroupTable::Untold => None,
        GroupTable::Stuck(stuck) => Some(found_by_few(metas, units, sets, group, stuck, class)),
        GroupTable::Unsure => Some(FoundUnit::Untyped),
        GroupTable::Each(choices) => found_by_many(metas, units, sets, group, choices, class),
    }
}
