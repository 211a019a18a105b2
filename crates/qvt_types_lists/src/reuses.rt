//! The units that the lists of mappings name.

ghost use Rattle.std.specs.Prelude.{◌≡◌, ◌++◌, [], map, IfOk, OnOk};
ghost use Rattle.std.specs.List.{flat_map};
ghost use Rattle.qvt_tree_types.specs.Module.{mapping_view, unit_view};
ghost use Rattle.qvt_tree_types.specs.declared.types.PathTree.{PathTree};
ghost use Rattle.qvt_types_groups.specs.Reuse as reuse;

use crate::listed::listed;
use qvt_base::list_fault::ListFault;
use qvt_base::seq::Seq;
use qvt_cycle::lists::Positions;
use qvt_tree_types::module::{Mapping, Unit};
use qvt_tree_types::types::PathTree;
use qvt_types_data::refusal::RefusalKind;
use qvt_types_groups::unit_names::UnitNames;
use qvt_types_paths::metas::Metas;
use qvt_types_paths::model_types::TypeNames;
use std::alloc::Global;

/// Puts the number last, if there is one.
fn add(numbers: &mut Positions, number: Result<u32, RefusalKind>) -> Result<(), ListFault>
    ensures { OnOk result (numbers.new ≡ numbers.old ++ reuse.numbers_of number) }
{
    match number {
        Ok(number) => numbers.push(number),
        Err(_) => Ok(()),
    }
}

/// Puts the units that the paths name last.
fn add_listed(
    metas: &Metas,
    names: &TypeNames,
    units: &UnitNames,
    paths: &[PathTree],
    numbers: &mut Positions,
) -> Result<(), ListFault>
    ensures { OnOk result (numbers.new ≡ numbers.old ++ flat_map (λ (path : PathTree). reuse.numbers_of (reuse.listed metas.now names.now units.now path.names)) paths.now) }
{
    for path in paths {
        add(numbers, listed(metas, names, units, path.names.as_slice()))?;
    }
    Ok(())
}

/// The units that the three lists of a mapping name.
fn reused(
    alloc: Global,
    metas: &Metas,
    names: &TypeNames,
    units: &UnitNames,
    mapping: &Mapping,
) -> Result<Positions, ListFault>
    ensures { IfOk result (λ ns. ns ≡ reuse.reused metas.now names.now units.now (mapping_view mapping.now)) }
{
    let mut numbers = Seq::new(alloc);
    add_listed(
        metas,
        names,
        units,
        mapping.inherits.as_slice(),
        &mut numbers,
    )?;
    add_listed(metas, names, units, mapping.merges.as_slice(), &mut numbers)?;
    add_listed(
        metas,
        names,
        units,
        mapping.disjuncts.as_slice(),
        &mut numbers,
    )?;
    Ok(numbers)
}

fn unit_reuses(
    alloc: Global,
    metas: &Metas,
    names: &TypeNames,
    units: &UnitNames,
    unit: &Unit,
) -> Result<Positions, ListFault>
    ensures { IfOk result (λ ns. ns ≡ reuse.unit_reuses metas.now names.now units.now (unit_view unit.now)) }
{
    match unit {
        Unit::Class(_) => Ok(Seq::new(alloc)),
        Unit::Main(_, _) => Ok(Seq::new(alloc)),
        Unit::Helper(_) => Ok(Seq::new(alloc)),
        Unit::Constructor(_) => Ok(Seq::new(alloc)),
        Unit::Mapping(mapping) => reused(alloc, metas, names, units, mapping),
    }
}

/// For each unit of the text those that its lists name.
pub fn reuse_lists(
    alloc: Global,
    metas: &Metas,
    names: &TypeNames,
    units: &UnitNames,
    written: &[Unit],
) -> Result<Vec<Positions>, ListFault>
    ensures { IfOk result (λ v. v.items ≡ map (reuse.unit_reuses metas.now names.now units.now) (map unit_view written.now)) }
{
    let mut lists = Seq::new(alloc);
    for unit in written {
        lists.push(unit_reuses(alloc, metas, names, units, unit)?)?;
    }
    Ok(lists.into_vec())
}
