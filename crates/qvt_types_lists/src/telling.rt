//! What is told of mappings by the lists in which they name others.

ghost use Rattle.std.specs.Prelude.{◌≡◌, ◌++◌, ◌<◌, length, map, OnOk};
ghost use Rattle.qvt_cycle.specs.Ready.{AreCyclesOf};
ghost use Rattle.qvt_tree_types.specs.Module.{mapping_view, unit_view};
ghost use Rattle.qvt_tree_types.specs.View.{block_view};
ghost use Rattle.qvt_types_groups.specs.Numbers as numbers;
ghost use Rattle.qvt_types_groups.specs.Reuse as reuse;
ghost use Rattle.qvt_types_groups.specs.Units as units_told;
ghost use Rattle.qvt_types_lists.specs.Lists as lists_of;

use crate::listed::listed;
use crate::reuses::reuse_lists;
use qvt_base::list_fault::ListFault;
use qvt_base::numbers::Place;
use qvt_cycle::cycles::Cycles;
use qvt_cycle::lists::Positions;
use qvt_tree_types::module::{Mapping, Unit};
use qvt_tree_types::tree::Stmt;
use qvt_tree_types::types::PathTree;
use qvt_types_data::refusal::{RefusalKind, TypingRefusal};
use qvt_types_groups::numbers::no_unit;
use qvt_types_groups::reuse::{Reuse, is_bad_reuse};
use qvt_types_groups::signature::Signature;
use qvt_types_groups::unit_names::UnitNames;
use qvt_types_paths::metas::Metas;
use qvt_types_paths::model_types::TypeNames;
use qvt_types_paths::told::{RefusalList, tell_if};
use std::alloc::Global;

/// What lists of mappings are judged by: the metamodels that are given, in which paths are looked up, those with the intermediate
/// classes, the names of types, and the units.
#[derive(Clone, Copy)]
pub struct Listing<'a> {
    pub given: &'a Metas,
    pub metas: &'a Metas,
    pub names: &'a TypeNames,
    pub units: &'a UnitNames,
}

/// Whether the mapping may not reuse the unit with this number.
fn is_bad_at(
    alloc: Global,
    listing: &Listing<'_>,
    how: Reuse,
    unit: &Signature,
    number: u32,
) -> bool
    ensures { result ≡ reuse.is_bad_reuse listing.now.metas.now how unit.now (numbers.unit_at listing.now.units.now number) }
{
    let units = listing.units.signatures();
    let at = number as usize;
    if at < units.len() {
        is_bad_reuse(listing.metas, how, unit, &units[at])
    } else {
        is_bad_reuse(listing.metas, how, unit, &no_unit(alloc))
    }
}

fn tell_reuse_of(
    alloc: Global,
    listing: &Listing<'_>,
    how: Reuse,
    unit: &Signature,
    place: Place,
    number: Result<u32, RefusalKind>,
    log: &mut RefusalList,
) -> Result<(), ListFault>
    ensures { OnOk result (log.new ≡ log.old ++ reuse.reuse_of listing.now.metas.now how listing.now.units.now unit.now place number) }
{
    match number {
        Ok(number) => {
            let bad = is_bad_at(alloc, listing, how, unit, number);
            tell_if(log, bad, RefusalKind::BadReuse, place)
        }
        Err(kind) => log.push(TypingRefusal { kind, place }),
    }
}

/// Tells what is wrong with a path in a list of the mapping.
#[tactic(auto, unfolding(qvt_types_units::specs::Reuse::reuse_told))]
fn tell_reuse(
    alloc: Global,
    listing: &Listing<'_>,
    how: Reuse,
    unit: &Signature,
    path: &PathTree,
    log: &mut RefusalList,
) -> Result<(), ListFault>
    ensures { OnOk result (log.new ≡ log.old ++ reuse.reuse_told listing.now.given.now listing.now.metas.now listing.now.names.now listing.now.units.now how unit.now path.now) }
{
    let number = listed(
        listing.given,
        listing.names,
        listing.units,
        path.names.as_slice(),
    );
    tell_reuse_of(alloc, listing, how, unit, path.place, number, log)
}

fn tell_paths(
    alloc: Global,
    listing: &Listing<'_>,
    how: Reuse,
    unit: &Signature,
    paths: &[PathTree],
    log: &mut RefusalList,
) -> Result<(), ListFault>
    ensures { OnOk result (log.new ≡ log.old ++ reuse.paths_told listing.now.given.now listing.now.metas.now listing.now.names.now listing.now.units.now how unit.now paths.now) }
{
    for path in paths {
        tell_reuse(alloc, listing, how, unit, path, log)?;
    }
    Ok(())
}

fn has_paths(paths: &[PathTree]) -> bool
    ensures { result ≡ reuse.is_some_list paths.now }
{
    match paths {
        [] => false,
        [_, ..] => true,
    }
}

fn has_stmts(stmts: &[Stmt]) -> bool
    ensures { result ≡ reuse.has_stmts (block_view stmts.now) }
{
    match stmts {
        [] => false,
        [_, ..] => true,
    }
}

/// Whether a dispatcher has statements, or inherits or merges: BadDisjunct.
#[tactic(auto, unfolding(qvt_types_units::specs::Reuse::is_bad_disjunct))]
pub fn is_bad_disjunct(mapping: &Mapping) -> bool
    ensures { result ≡ reuse.is_bad_disjunct (mapping_view mapping.now) }
{
    has_paths(mapping.disjuncts.as_slice())
        && (has_paths(mapping.inherits.as_slice())
            || has_paths(mapping.merges.as_slice())
            || has_stmts(mapping.init.as_slice())
            || has_stmts(mapping.population.as_slice())
            || has_stmts(mapping.finish.as_slice()))
}

/// Tells what is wrong with the lists of a mapping with this signature.
fn tell_mapping(
    alloc: Global,
    listing: &Listing<'_>,
    unit: &Signature,
    on_cycle: bool,
    mapping: &Mapping,
    log: &mut RefusalList,
) -> Result<(), ListFault>
    ensures { OnOk result (log.new ≡ log.old ++ lists_of.told_of_lists listing.now.given.now listing.now.metas.now listing.now.names.now listing.now.units.now unit.now on_cycle (mapping_view mapping.now)) }
{
    tell_paths(
        alloc,
        listing,
        Reuse::Shared,
        unit,
        mapping.inherits.as_slice(),
        log,
    )?;
    tell_paths(
        alloc,
        listing,
        Reuse::Shared,
        unit,
        mapping.merges.as_slice(),
        log,
    )?;
    tell_paths(
        alloc,
        listing,
        Reuse::Disjunct,
        unit,
        mapping.disjuncts.as_slice(),
        log,
    )?;
    tell_if(log, on_cycle, RefusalKind::ReuseCycle, mapping.place)?;
    tell_if(
        log,
        is_bad_disjunct(mapping),
        RefusalKind::BadDisjunct,
        mapping.place,
    )
}

/// The same of a mapping by its number.
fn tell_mapping_at(
    alloc: Global,
    listing: &Listing<'_>,
    number: u32,
    on_cycle: bool,
    mapping: &Mapping,
    log: &mut RefusalList,
) -> Result<(), ListFault>
    ensures { OnOk result (log.new ≡ log.old ++ lists_of.told_of_lists listing.now.given.now listing.now.metas.now listing.now.names.now listing.now.units.now (numbers.unit_at listing.now.units.now number) on_cycle (mapping_view mapping.now)) }
{
    let units = listing.units.signatures();
    let at = number as usize;
    if at < units.len() {
        tell_mapping(alloc, listing, &units[at], on_cycle, mapping, log)
    } else {
        tell_mapping(alloc, listing, &no_unit(alloc), on_cycle, mapping, log)
    }
}

/// Tells what is wrong with the lists of a unit, where it is a mapping; `cycles` tells of the lists which lead back to themselves.
#[tactic(auto, unfolding(qvt_types_units::specs::Reuse::mapping_told))]
fn tell_unit(
    alloc: Global,
    listing: &Listing<'_>,
    lists: &[Positions],
    cycles: &Cycles,
    number: u32,
    unit: &Unit,
    log: &mut RefusalList,
) -> Result<(), ListFault>
    requires ready { AreCyclesOf lists.now cycles.now }
    requires there { number < length lists.now }
    ensures { OnOk result (log.new ≡ log.old ++ lists_of.unit_told listing.now.given.now listing.now.metas.now listing.now.names.now listing.now.units.now lists.now number (unit_view unit.now)) }
{
    match unit {
        Unit::Class(_) => Ok(()),
        Unit::Main(_, _) => Ok(()),
        Unit::Helper(_) => Ok(()),
        Unit::Constructor(_) => Ok(()),
        Unit::Mapping(mapping) => {
            let on_cycle = cycles.is_on_cycle(alloc, lists, number)?;
            tell_mapping_at(alloc, listing, number, on_cycle, mapping, log)?;
            Ok(())
        }
    }
}

/// The same of all units of as many, whose lists name these.
fn tell_units(
    alloc: Global,
    listing: &Listing<'_>,
    lists: &[Positions],
    written: &[Unit],
    count: u32,
    log: &mut RefusalList,
) -> Result<(), ListFault>
    requires each { length lists.now ≡ length written.now }
    requires all { length written.now ≡ count }
    ensures { OnOk result (log.new ≡ log.old ++ units_told.lists_told listing.now.given.now listing.now.metas.now listing.now.names.now listing.now.units.now lists.now 0 (map unit_view written.now)) }
{
    let cycles = Cycles::new(alloc, lists)?;
    for number in 0..count {
        let unit = &written[number as usize];
        tell_unit(alloc, listing, lists, &cycles, number, unit, log)?;
    }
    Ok(())
}

/// Tells what is wrong with the lists of the mappings: at a path UnknownName, Ambiguous or BadReuse, at a mapping ReuseCycle and
/// BadDisjunct. It is refused as out of memory where the numbers of the units do not fit 32 bits.
pub fn tell_lists(
    alloc: Global,
    listing: &Listing<'_>,
    written: &[Unit],
    log: &mut RefusalList,
) -> Result<(), ListFault>
    ensures { OnOk result (log.new ≡ log.old ++ units_told.lists_told listing.now.given.now listing.now.metas.now listing.now.names.now listing.now.units.now (map (reuse.unit_reuses listing.now.given.now listing.now.names.now listing.now.units.now) (map unit_view written.now)) 0 (map unit_view written.now)) }
{
    let lists = reuse_lists(alloc, listing.given, listing.names, listing.units, written)?;
    let Ok(count) = u32::try_from(written.len()) else {
        return Err(ListFault::NoMemory);
    };
    tell_units(alloc, listing, lists.as_slice(), written, count, log)
}
