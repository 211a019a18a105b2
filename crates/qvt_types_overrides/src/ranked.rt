//! The units of each name with a context, and what is told of them at each class and above it.

ghost use Rattle.std.specs.Prelude.{◌≡◌, IfOk};
ghost use Rattle.qvt_types_overrides.specs.Ranked as ranked;
ghost use Rattle.qvt_types_overrides.specs.Ranked.{EachFrom, AreRanked};
ghost use Rattle.qvt_types_above.specs.Tells.{AllFrom};
ghost use Rattle.qvt_types_overrides.specs.Upper.{AreSupers};

use crate::odd::{UnitsByName, by_name};
use qvt_base::list_fault::ListFault;
use qvt_base::seq::Seq;
use qvt_metas::number_set::MarkedNumbers;
use qvt_types_above::above::{Above, above_at};
use qvt_types_above::table::{AboveTable, table_of, untold};
use qvt_types_groups::class_choices::class_order;
use qvt_types_groups::signature::{HeadClass, Signature};
use qvt_types_paths::metas::Metas;
use std::alloc::Global;

/// Units that are called alike and have a context, and for each name what is told of them at each class and above it.
pub struct Ranked {
    pub named: UnitsByName,
    pub tables: Seq<AboveTable>,
}

impl Drop for Ranked {
    fn drop(self) {
        let Ranked { named, tables } = self;
    }
}

/// Whether a table is worth it: to compare each of so many units with those that are unlike the first takes longer than there are
/// classes.
fn is_worth(count: u32, all: usize, odd: usize) -> bool
    ensures { result ≡ ranked.is_worth count all odd }
{
    all > 0 && (count as usize) / all < odd
}

/// The same of the units of a name.
fn is_wide(count: u32, units: &[Signature], named: &UnitsByName, group: &[u32]) -> bool
    ensures { result ≡ ranked.is_wide count units.now named.now group.now }
{
    match group {
        [] => false,
        [first, ..] => {
            let at = *first as usize;
            at < units.len()
                && is_worth(
                    count,
                    group.len(),
                    named.odd.find(units[at].name.as_str()).len(),
                )
        }
    }
}

/// What is told of the units of a name; nothing where it is not worth it.
fn table_where(
    alloc: Global,
    metas: &Metas,
    units: &[Signature],
    is_wide: bool,
    group: &[u32],
    order: &[u32],
) -> Result<AboveTable, ListFault>
    ensures { IfOk result (AllFrom metas.now units.now group.now) }
{
    if is_wide {
        let table = table_of(alloc, metas, units, group, order)?;
        Ok(table)
    } else {
        let table = untold(alloc, 0)?;
        Ok(table)
    }
}

/// The same by each name.
fn tables_along(
    alloc: Global,
    metas: &Metas,
    units: &[Signature],
    named: &UnitsByName,
    order: &[u32],
) -> Result<Seq<AboveTable>, ListFault>
    ensures { IfOk result (EachFrom metas.now units.now named.now.all.lists) }
{
    let count = metas.class_count();
    let mut tables = Seq::new(alloc);
    for list in named.all.lists() {
        let group = list.as_slice();
        let is_wide = is_wide(count, units, named, group);
        let table = table_where(alloc, metas, units, is_wide, group, order)?;
        tables.push(table)?;
    }
    Ok(tables)
}

/// Whether it is worth it for one of the names.
fn is_some_wide(count: u32, units: &[Signature], named: &UnitsByName) -> bool
    ensures { result ≡ list_any (ranked.is_wide count units.now named.now) named.now.all.lists }
{
    named
        .all
        .lists()
        .iter()
        .any(|list| is_wide(count, units, named, list.as_slice()))
}

ghost use Rattle.std.specs.List.{list_any};

/// What is told of the units of each name.
fn tables_of(
    alloc: Global,
    metas: &Metas,
    units: &[Signature],
    named: &UnitsByName,
) -> Result<Seq<AboveTable>, ListFault>
    ensures { IfOk result (EachFrom metas.now units.now named.now.all.lists) }
{
    if is_some_wide(metas.class_count(), units, named) {
        let order = class_order(alloc, metas)?;
        let tables = tables_along(alloc, metas, units, named, order.classes.as_slice())?;
        Ok(tables)
    } else {
        Ok(Seq::new(alloc))
    }
}

/// The mappings with a context, or the helpers and queries, by their names, where the set has the superclasses of all classes. It is
/// refused as out of memory where their numbers do not fit 32 bits.
pub fn rank_by_name(
    alloc: Global,
    metas: &Metas,
    supers: &MarkedNumbers,
    maps: bool,
    units: &[Signature],
) -> Result<Ranked, ListFault>
    requires { AreSupers metas.now.classes supers.now }
    ensures { IfOk result (AreRanked metas.now maps units.now) }
{
    let named = by_name(alloc, metas, supers, maps, units)?;
    let tables = tables_of(alloc, metas, units, &named)?;
    Ok(Ranked { named, tables })
}

fn told_under(tables: &[AboveTable], place: Option<u32>, class: u32) -> Above
    ensures { result ≡ ranked.told_under tables.now place class }
{
    match place {
        None => Above::Untold,
        Some(place) => {
            let at = place as usize;
            if at < tables.len() {
                above_at(tables[at].row.as_slice(), class)
            } else {
                Above::Untold
            }
        }
    }
}

/// What the table at this place tells of a class and those above it.
pub fn told_at(tables: &[AboveTable], place: Option<u32>, context: HeadClass) -> Above
    ensures { result ≡ ranked.told_at tables.now place context }
{
    match context {
        HeadClass::Missing => Above::Nothing,
        HeadClass::Unknown => Above::Nothing,
        HeadClass::Known(class) => told_under(tables, place, class.0),
    }
}

/// The lists by which it tells it.
pub fn lists_under(tables: &[AboveTable], place: Option<u32>) -> &[Seq<u32>]
    ensures { result.now ≡ ranked.lists_under tables.now place }
{
    match place {
        None => &[],
        Some(place) => {
            let at = place as usize;
            if at < tables.len() {
                tables[at].lists.as_slice()
            } else {
                &[]
            }
        }
    }
}
