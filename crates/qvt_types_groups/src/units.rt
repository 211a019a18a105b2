//! The units of a transformation: by their names, and which of those of a name is called on objects of a class.

ghost use Rattle.std.specs.Prelude.{◌≡◌, ◌<◌, length, nat_lt, IfOk, IfSome};
ghost use Rattle.qvt_types_units.specs.Choice as choice;
ghost use Rattle.qvt_types_choices.specs.Sets.{AreSets};
ghost use Rattle.qvt_types_choices.specs.Tables.{TellsOf};
ghost use Rattle.qvt_types_groups.specs.Choices as choices_of;

use crate::class_choices::class_order;
use crate::unit_names::UnitNames;
use qvt_base::list_fault::ListFault;
use qvt_base::numbers::ClassNo;
use qvt_base::seq::Seq;
use qvt_types_choices::choices::{found_alone, look_up};
use qvt_types_choices::class_sets::{ClassSets, class_sets};
use qvt_types_choices::tables::{GroupTable, found_in, group_table};
use qvt_types_paths::metas::Metas;
use qvt_types_units::choice::FoundUnit;
use qvt_types_units::numbers::is_mapping;
use qvt_types_units::signature::Signature;
use std::alloc::Global;
use std::marker::Model;

/// What is told of the units that are called like this one, where it is the first of them.
fn unit_table(
    alloc: Global,
    metas: &Metas,
    names: &UnitNames,
    sets: &ClassSets,
    order: &[u32],
    number: u32,
    unit: &Signature,
) -> Result<GroupTable, ListFault>
    requires sets { AreSets metas.now sets.now }
    requires unit { unit.now ≡ unit_at names.now number }
    ensures { IfOk result (TellsOf metas.now names.now (choices_of.group_of names.now number)) }
{
    match names.group(is_mapping(unit.sort), unit.name.as_str()) {
        [] => Ok(GroupTable::Untold),
        [first, ..] if *first != number => Ok(GroupTable::Untold),
        group => group_table(alloc, metas, names.signatures(), sets, group, order),
    }
}

ghost use Rattle.qvt_types_units.specs.Numbers.{unit_at};

/// What is told of each name, at its first unit.
fn unit_tables(
    alloc: Global,
    metas: &Metas,
    names: &UnitNames,
    sets: &ClassSets,
    order: &[u32],
) -> Result<Seq<GroupTable>, ListFault>
    requires { AreSets metas.now sets.now }
    ensures { IfOk result (choices_of.EachTells metas.now names.now) }
{
    let units = names.signatures();
    let mut tables = Seq::with_room(alloc, names.count() as usize)?;
    for number in 0..names.count() {
        let unit = &units[number as usize];
        tables.push(unit_table(alloc, metas, names, sets, order, number, unit)?)?;
    }
    Ok(tables)
}

/// Whether several units are called like this one.
fn is_one_of_several(names: &UnitNames, unit: &Signature) -> bool
    ensures { result ≡ nat_lt 1 (length (choices_of.called_like names.now unit.now)) }
{
    names.group(is_mapping(unit.sort), unit.name.as_str()).len() > 1
}

/// Whether some units are called like others.
fn are_several(names: &UnitNames) -> bool
    ensures { result ≡ choices_of.are_several names.now }
{
    names
        .signatures()
        .iter()
        .any(|unit| is_one_of_several(names, unit))
}

/// What is told of units that are called like others, by sets of classes.
#[derive(Drop)]
struct ToldUnits {
    sets: ClassSets,
    tables: Seq<GroupTable>,
}

impl ToldUnits {
    /// What is found for the class by what is told of the units that are called like this one.
    fn find(
        &self,
        metas: &Metas,
        names: &UnitNames,
        first: u32,
        group: &[u32],
        class: ClassNo,
    ) -> Option<FoundUnit>
        requires told { choices_of.HaveTables metas.now names.now self.now }
        requires group { group.now ≡ choices_of.group_of names.now first }
        ensures { IfSome result (λ f. f ≡ choice.looked_up metas.now names.now group.now class.0) }
    {
        let table = self.tables.get(first as usize)?;
        found_in(metas, names.signatures(), &self.sets, group, table, class)
    }

    /// What is found for the class among these units, which are called like this one.
    fn find_among(
        &self,
        alloc: Global,
        metas: &Metas,
        names: &UnitNames,
        first: u32,
        group: &[u32],
        class: ClassNo,
    ) -> Result<FoundUnit, ListFault>
        requires told { choices_of.HaveTables metas.now names.now self.now }
        requires group { group.now ≡ choices_of.group_of names.now first }
        ensures { IfOk result (λ f. f ≡ choice.looked_up metas.now names.now group.now class.0) }
    {
        match self.find(metas, names, first, group, class) {
            Some(found) => Ok(found),
            None => look_up(alloc, metas, names.signatures(), &self.sets, group, class),
        }
    }
}

/// What is told of the units that are called like others, if there are some.
fn told_units(
    alloc: Global,
    metas: &Metas,
    names: &UnitNames,
) -> Result<Option<ToldUnits>, ListFault>
    ensures { IfOk result (choices_of.TablesTell metas.now names.now) }
{
    if !are_several(names) {
        return Ok(None);
    }
    let order = class_order(alloc, metas)?;
    let sets = class_sets(alloc, metas, &order)?;
    let tables = unit_tables(alloc, metas, names, &sets, order.classes.as_slice())?;
    Ok(Some(ToldUnits { sets, tables }))
}

/// Metamodels with Element and the intermediate classes of a transformation, and its units. Of each name that several units have it is
/// told once which classes have no single choice, and for many units the choice for each class; where no name has several, nothing.
pub struct Units {
    metas: Metas,
    names: UnitNames,
    told: Option<ToldUnits>,
}

impl Drop for Units {
    fn drop(self) {
        let Units { metas, names, told } = self;
    }
}

impl Model for Units {
    ghost use Rattle.std.specs.Coded.{codes};
    ghost use Rattle.qvt_types_data.specs.contracts.ty.Ty as ty_row;
    ghost use Rattle.qvt_types_groups.specs.Choices.{ChosenUnits, TablesTell};

    ghost Value = { ChosenUnits };

    ghost coded = { Prim.hlevel (codes, ty_row.the_row.coded) };

    ghost view = { λ t. record { metas = t.metas; units = t.names } };

    ghost invariant = { λ t. TablesTell t.metas t.names t.told };
}

impl Units {
    /// These metamodels and units.
    pub fn new(alloc: Global, metas: Metas, names: UnitNames) -> Result<Units, ListFault>
        ensures { IfOk result (λ t. t ≡ record { metas = metas; units = names }) }
    {
        let told = told_units(alloc, &metas, &names)?;
        Ok(Units { metas, names, told })
    }

    /// The metamodels with Element and the intermediate classes.
    pub fn metas(&self) -> &Metas
        ensures { result.now ≡ self.now.metas }
    {
        &self.metas
    }

    /// The units by their names.
    pub fn names(&self) -> &UnitNames
        ensures { result.now ≡ self.now.units }
    {
        &self.names
    }

    /// What is found for the class among these units, which are several and called like this one.
    fn found_among(
        &self,
        alloc: Global,
        first: u32,
        group: &[u32],
        class: ClassNo,
    ) -> Result<FoundUnit, ListFault>
        requires group { group.now ≡ choices_of.group_of self.now.units first }
        requires several { 1 < length group.now }
        ensures { IfOk result (λ f. f ≡ choice.looked_up self.now.metas self.now.units group.now class.0) }
    {
        let Some(told) = &self.told else {
            unreachable!()
        };
        told.find_among(alloc, &self.metas, &self.names, first, group, class)
    }

    /// What a call of a unit with a context by its name finds for objects of the class. Where the class is one of the metamodels' it
    /// takes no memory.
    #[tactic(auto, unfolding(qvt_types_units::specs::Choice::called_on))]
    pub fn called_on(
        &self,
        alloc: Global,
        maps: bool,
        name: &str,
        class: ClassNo,
    ) -> Result<FoundUnit, ListFault>
        ensures { IfOk result (λ f. f ≡ choice.called_on self.now.metas self.now.units maps name.now class.0) }
    {
        let group = self.names.group(maps, name);
        match group {
            [] => Ok(FoundUnit::NoUnit),
            [number] => {
                let units = self.names.signatures();
                Ok(found_alone(&self.metas, units, *number, class))
            }
            [first, ..] => self.found_among(alloc, *first, group, class),
        }
    }
}
