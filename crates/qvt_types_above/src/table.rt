//! What is told of the units of a name at each class and above it, once for each class by its superclasses.

ghost use Rattle.std.specs.Prelude.{◌≡◌, IsTrue, IfOk, OnOk};
ghost use Rattle.qvt_types_above.specs.Own as own_words;
ghost use Rattle.qvt_types_above.specs.Table as table_words;
ghost use Rattle.qvt_types_above.specs.Table.{AreAlike, IsShort};
ghost use Rattle.qvt_types_above.specs.Tells.{AreGuarded, IsAskedBy, AreOwn, AllFrom, IsAboveTable};

use crate::above::{Above, AboveRow, above_at, combined, from_all};
use crate::asks::{Guard, Guards, asks_classes};
use crate::gathered::{are_told, gathered};
use crate::own::{is_element, own_row, same_of_each, tell, top_units};
use qvt_base::list_fault::ListFault;
use qvt_base::numbers::ClassNo;
use qvt_base::seq::Seq;
use qvt_metas::number_set::MarkedNumbers;
use qvt_metas::tables::supers_at;
use qvt_types_groups::signature::Signature;
use qvt_types_laws::laws::same_means_equal;
use qvt_types_paths::metas::Metas;
use std::alloc::Global;

/// How many numbers the lists of a name may have, for each of its units. A class is not told of where there is no room for its list.
const NUMBERS_EACH: usize = 128;

/// What is told of each class by its number, the lists by which it is told, and their guards.
pub struct AboveTable {
    pub row: AboveRow,
    pub lists: Seq<Seq<u32>>,
    pub guards: Guards,
}

impl Drop for AboveTable {
    fn drop(self) {
        let AboveTable { row, lists, guards } = self;
    }
}

/// What a table is made of: the units of the name among all, and what is told of each class by itself and of the class above all.
#[derive(Clone, Copy)]
struct Making<'a> {
    metas: &'a Metas,
    units: &'a [Signature],
    group: &'a [u32],
    own: &'a [Above],
    top: Above,
}

/// What lists are made with: a set for the numbers of one list, and how many the lists to come may have.
#[derive(Drop)]
struct Room {
    seen: MarkedNumbers,
    left: usize,
}

/// Whether this is one unit, which asks all that is told of the classes.
fn is_asked_by(
    metas: &Metas,
    units: &[Signature],
    table: &mut AboveTable,
    told: Above,
    classes: &[ClassNo],
) -> bool
    requires { AreGuarded metas.now units.now table.old.lists table.old.guards }
    ensures asks { IsTrue result → IsAskedBy metas.now units.now table.old.lists table.old.row told classes.now }
    ensures table { AreAlike metas.now units.now table.old table.new }
{
    match told {
        Above::Untold => false,
        Above::Nothing => false,
        Above::Least(number) => asks_classes(
            metas,
            units,
            table.lists.as_slice(),
            table.row.as_slice(),
            &mut table.guards,
            number,
            classes,
        ),
        Above::Both(_, _) => false,
        Above::Listed(_) => false,
    }
}

/// What is told of a class by what is told of it alone and of its superclasses, without a list more.
fn told_by(
    metas: &Metas,
    units: &[Signature],
    table: &mut AboveTable,
    told: Above,
    supers: &[ClassNo],
) -> Above
    requires { AreGuarded metas.now units.now table.old.lists table.old.guards }
    ensures told { IsShort metas.now units.now table.old.lists table.old.row told supers.now result }
    ensures table { AreAlike metas.now units.now table.old table.new }
{
    if is_asked_by(metas, units, table, told, supers) {
        told
    } else {
        from_all(metas, units, table.row.as_slice(), told, supers)
    }
}

/// The same by a list of all units that are told of, while there is room for lists.
fn listed(
    alloc: Global,
    room: &mut Room,
    table: &mut AboveTable,
    told: Above,
    supers: &[ClassNo],
) -> Result<Above, ListFault>
    ensures { IfOk result (λ listed. table_words.IsListed table.old table.new told supers.now listed) }
{
    if room.left == 0 || !are_told(table.row.as_slice(), told, supers) {
        return Ok(Above::Untold);
    }
    let Ok(place) = u32::try_from(table.lists.len()) else {
        return Ok(Above::Untold);
    };
    let list = gathered(
        alloc,
        table.lists.as_slice(),
        table.row.as_slice(),
        &mut room.seen,
        told,
        supers,
    )?;
    room.left = room.left.saturating_sub(list.len());
    table.lists.push(list)?;
    table.guards.push(Guard {
        unit: None,
        class: None,
    })?;
    Ok(Above::Listed(place))
}

/// What is told by little, or else by a list.
fn or_listed(
    alloc: Global,
    room: &mut Room,
    table: &mut AboveTable,
    short: Above,
    told: Above,
    supers: &[ClassNo],
) -> Result<Above, ListFault>
    ensures { IfOk result (λ all. table_words.IsToldOrListed table.old table.new short told supers.now all) }
{
    match short {
        Above::Untold => listed(alloc, room, table, told, supers),
        Above::Nothing => Ok(Above::Nothing),
        Above::Least(least) => Ok(Above::Least(least)),
        Above::Both(first, second) => Ok(Above::Both(first, second)),
        Above::Listed(place) => Ok(Above::Listed(place)),
    }
}

/// What is told of the units of a class, and of those of the class above all where it is another.
fn base_of(making: &Making<'_>, class: u32) -> Above
    ensures { result ≡ own_words.base_of making.now.metas.now making.now.units.now making.now.own.now making.now.top class }
{
    let own = above_at(making.own, class);
    if is_element(making.metas, ClassNo(class)) {
        own
    } else {
        combined(making.metas, making.units, own, making.top)
    }
}

/// Tells of a class and those above it.
fn tell_class(
    alloc: Global,
    making: &Making<'_>,
    room: &mut Room,
    table: &mut AboveTable,
    class: u32,
) -> Result<(), ListFault>
    requires own { AreOwn making.now.metas.now making.now.units.now making.now.group.now making.now.own.now making.now.top }
    requires table { IsAboveTable making.now.metas.now making.now.units.now making.now.group.now table.old }
    ensures { OnOk result (IsAboveTable making.now.metas.now making.now.units.now making.now.group.now table.new) }
{
    same_means_equal();
    making.metas.are_well_formed();
    making.metas.ancestors_are_least();
    let base = base_of(making, class);
    let supers = supers_at(making.metas.class_infos(), class);
    let short = told_by(making.metas, making.units, table, base, supers);
    let told = or_listed(alloc, room, table, short, base, supers)?;
    tell(&mut table.row, class, told);
    Ok(())
}

/// Tells of each class of an order. Where each comes after its superclasses, these are told.
fn tell_along(
    alloc: Global,
    making: &Making<'_>,
    room: &mut Room,
    table: &mut AboveTable,
    order: &[u32],
) -> Result<(), ListFault>
    requires own { AreOwn making.now.metas.now making.now.units.now making.now.group.now making.now.own.now making.now.top }
    requires table { IsAboveTable making.now.metas.now making.now.units.now making.now.group.now table.old }
    ensures { OnOk result (IsAboveTable making.now.metas.now making.now.units.now making.now.group.now table.new) }
{
    for class in order {
        tell_class(alloc, making, room, table, *class)?;
    }
    Ok(())
}

/// A table that tells nothing of as many classes.
pub fn untold(alloc: Global, count: u32) -> Result<AboveTable, ListFault>
    ensures { IfOk result (λ table. table ≡ table_words.untold count) }
{
    let row = same_of_each(alloc, Above::Untold, count)?;
    Ok(AboveTable {
        row,
        lists: Seq::new(alloc),
        guards: Seq::new(alloc),
    })
}

/// The table of what it is made of.
fn made(alloc: Global, making: &Making<'_>, order: &[u32]) -> Result<AboveTable, ListFault>
    requires { AreOwn making.now.metas.now making.now.units.now making.now.group.now making.now.own.now making.now.top }
    ensures { IfOk result (AllFrom making.now.metas.now making.now.units.now making.now.group.now) }
{
    let mut room = Room {
        seen: MarkedNumbers::new(alloc),
        left: making.group.len().saturating_mul(NUMBERS_EACH),
    };
    let mut table = untold(alloc, making.metas.class_count())?;
    tell_along(alloc, making, &mut room, &mut table, order)?;
    Ok(table)
}

/// What is told of each class, of these units, along an order. All of it is told where each class comes after its superclasses.
pub fn table_of(
    alloc: Global,
    metas: &Metas,
    units: &[Signature],
    group: &[u32],
    order: &[u32],
) -> Result<AboveTable, ListFault>
    ensures { IfOk result (AllFrom metas.now units.now group.now) }
{
    same_means_equal();
    metas.are_well_formed();
    let own = own_row(alloc, metas, units, group, metas.class_count())?;
    let making = Making {
        metas,
        units,
        group,
        own: own.as_slice(),
        top: top_units(metas, units, group),
    };
    let table = made(alloc, &making, order)?;
    Ok(table)
}
