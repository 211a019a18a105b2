//! The units of a transformation by their names, looked up by hash.

ghost use Rattle.std.specs.Prelude.{◌≡◌, ◌<◌, position, length, IfOk};
ghost use Rattle.qvt_types_units.specs.Numbers as numbers;
ghost use Rattle.qvt_types_groups.specs.Keys.{is_named};
ghost use Rattle.qvt_types_groups.specs.Indexed.{AreCalled};

use crate::class_keys::{constructor_keys, named_keys};
use crate::class_table::{ClassKey, ClassTable};
use crate::number_lists::NumberLists;
use crate::unit_lists::lists_of;
use qvt_base::list_fault::ListFault;
use qvt_base::numbers::ClassNo;
use qvt_types_units::numbers::is_main;
use qvt_types_units::signature::{Signature, SignatureList};
use std::alloc::Global;
use std::marker::Model;

/// Units that are called alike: mappings, or helpers and queries.
pub struct UnitGroups {
    /// Those with a context, by name.
    pub groups: NumberLists,
    /// Those without, by name.
    pub free: NumberLists,
    /// The first of each context and name.
    pub named: ClassTable,
}

impl Drop for UnitGroups {
    fn drop(self) {
        let UnitGroups {
            groups,
            free,
            named,
        } = self;
    }
}

fn tables_of(alloc: Global, maps: bool, units: &[Signature]) -> Result<UnitGroups, ListFault>
    ensures { IfOk result (AreCalled maps units.now) }
{
    let groups = lists_of(alloc, maps, true, units)?;
    let free = lists_of(alloc, maps, false, units)?;
    let keys = named_keys(alloc, maps, &groups, units)?;
    Ok(UnitGroups {
        named: ClassTable::of(alloc, keys.as_slice())?,
        groups,
        free,
    })
}

fn main_place(units: &[Signature]) -> Option<usize>
    ensures { result ≡ position (λ u. numbers.is_main u.sort) units.now }
{
    units.iter().position(|unit| is_main(unit.sort))
}

/// The first `main`. It is refused as out of memory where its number does not fit 32 bits.
fn first_main(units: &[Signature]) -> Result<Option<u32>, ListFault>
    ensures { IfOk result (λ o. o ≡ position (λ u. numbers.is_main u.sort) units.now) }
{
    match main_place(units) {
        None => Ok(None),
        Some(place) => match u32::try_from(place) {
            Ok(place) => Ok(Some(place)),
            Err(_) => Err(ListFault::NoMemory),
        },
    }
}

/// The units of a transformation by their signatures, each list and first unit of a name looked up by hash.
pub struct UnitNames {
    units: SignatureList,
    mappings: UnitGroups,
    helpers: UnitGroups,
    constructors: ClassTable,
    main: Option<u32>,
}

impl Drop for UnitNames {
    fn drop(self) {
        let UnitNames {
            units,
            mappings,
            helpers,
            constructors,
            main,
        } = self;
    }
}

impl Model for UnitNames {
    ghost use Rattle.std.specs.Prelude.{List};
    ghost use Rattle.std.specs.Coded.{codes};
    ghost use Rattle.qvt_types_data.specs.contracts.ty.Ty as ty_row;
    ghost use Rattle.qvt_types_units.specs.declared.signature.Signature.{Signature};
    ghost use Rattle.qvt_types_groups.specs.Indexed.{AreIndexed};

    ghost Value = { List Signature };

    ghost coded = { Prim.hlevel (codes, ty_row.the_row.coded) };

    ghost view = { λ t. t.units };

    ghost invariant = { λ t. AreIndexed t.units t.mappings t.helpers t.constructors t.main };
}

impl UnitNames {
    /// The units with these signatures. It is refused as out of memory where their numbers do not fit 32 bits.
    pub fn new(alloc: Global, units: SignatureList) -> Result<UnitNames, ListFault>
        ensures { IfOk result (λ t. t ≡ units) }
    {
        let Ok(_) = u32::try_from(units.len()) else {
            return Err(ListFault::NoMemory);
        };
        let mappings = tables_of(alloc, true, units.as_slice())?;
        let helpers = tables_of(alloc, false, units.as_slice())?;
        let keys = constructor_keys(alloc, units.as_slice())?;
        let constructors = ClassTable::of(alloc, keys.as_slice())?;
        let main = first_main(units.as_slice())?;
        Ok(UnitNames {
            units,
            mappings,
            helpers,
            constructors,
            main,
        })
    }

    /// The signatures, in the order of the numbers.
    pub fn signatures(&self) -> &[Signature]
        ensures { result.now ≡ self.now }
    {
        self.units.as_slice()
    }

    /// How many units there are.
    pub fn count(&self) -> u32
        ensures { result ≡ length self.now }
    {
        self.units.len() as u32
    }

    /// The tables of the mappings, or of the helpers and queries.
    pub fn called(&self, maps: bool) -> &UnitGroups
        ensures { AreCalled maps self.now result.now }
    {
        if maps { &self.mappings } else { &self.helpers }
    }

    /// The units of the name with a context.
    pub fn group(&self, maps: bool, name: &str) -> &[u32]
        ensures { result.now ≡ numbers.group maps name.now self.now }
    {
        self.called(maps).groups.find(name)
    }

    /// The first unit of the name without a context.
    #[tactic(auto, unfolding(qvt_types_units::specs::Numbers::free_unit))]
    pub fn free_unit(&self, maps: bool, name: &str) -> Option<u32>
        ensures { result ≡ numbers.free_unit maps name.now self.now }
    {
        match self.called(maps).free.find(name) {
            [] => None,
            [number, ..] => Some(*number),
        }
    }

    /// The first unit of exactly this context and name.
    pub fn named(&self, maps: bool, class: ClassNo, name: &str) -> Option<u32>
        ensures { result ≡ position (is_named maps class.0 name.now) self.now }
    {
        let called = self.called(maps);
        match called.groups.place(name) {
            None => None,
            Some(place) => called.named.find(ClassKey {
                class,
                number: place as usize,
            }),
        }
    }

    /// The first mapping of exactly this context and name.
    #[tactic(auto, unfolding(qvt_types_units::specs::Numbers::mapping_named))]
    pub fn mapping_named(&self, class: ClassNo, name: &str) -> Option<u32>
        ensures { result ≡ numbers.mapping_named class.0 name.now self.now }
    {
        self.named(true, class, name)
    }

    /// The first constructor of the class with so many parameters.
    #[tactic(auto, unfolding(qvt_types_units::specs::Numbers::constructor_of))]
    pub fn constructor_of(&self, class: ClassNo, count: usize) -> Option<u32>
        ensures { result ≡ numbers.constructor_of class.0 count self.now }
    {
        self.constructors.find(ClassKey {
            class,
            number: count,
        })
    }

    /// The first `main`.
    pub fn main(&self) -> Option<u32>
        ensures { result ≡ position (λ u. numbers.is_main u.sort) self.now }
    {
        self.main
    }
}
