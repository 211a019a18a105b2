//! What is told of intermediate classes one by one.

ghost use Rattle.std.specs.Prelude.{◌≡◌, ◌++◌, [], map, OnOk};
ghost use Rattle.std.specs.List.{flat_map};
ghost use Rattle.qvt_tree_types.specs.Module.{class_view, field_view, unit_view};
ghost use Rattle.qvt_types_classes.specs.Written as declared;

use crate::declared::super_place;
use crate::shapes::property_shape;
use qvt_base::list_fault::ListFault;
use qvt_base::numbers::Place;
use qvt_metas::info::FeatureShape;
use qvt_metas::metas::Metas;
use qvt_tree_types::module::{ClassDecl, Field, Unit};
use qvt_tree_types::types::PathTree;
use qvt_types_data::refusal::{RefusalKind, TypingRefusal};
use qvt_types_paths::model_types::{TypeNames, with_class_name};
use qvt_types_paths::name_index::NameIndex;
use qvt_types_paths::told::{RefusalList, tell_if};
use std::alloc::Global;

/// Tells why there is no such number, if there is none.
fn tell_of(
    log: &mut RefusalList,
    place: Place,
    number: Result<u32, RefusalKind>,
) -> Result<(), ListFault>
    ensures { OnOk result (log.new ≡ log.old ++ declared.told_of place number) }
{
    match number {
        Ok(_) => Ok(()),
        Err(kind) => log.push(TypingRefusal { kind, place }),
    }
}

/// Tells what is wrong with the paths after `extends`.
fn tell_supers(
    metas: &Metas,
    names: &TypeNames,
    paths: &[PathTree],
    log: &mut RefusalList,
) -> Result<(), ListFault>
    ensures { OnOk result (log.new ≡ log.old ++ flat_map (declared.super_told metas.now names.now) paths.now) }
{
    for path in paths {
        tell_of(log, path.place, super_place(metas, names, path))?;
    }
    Ok(())
}

fn tell_property(
    log: &mut RefusalList,
    shape: Result<FeatureShape, TypingRefusal>,
) -> Result<(), ListFault>
    ensures { OnOk result (log.new ≡ log.old ++ declared.property_told shape) }
{
    match shape {
        Ok(_) => Ok(()),
        Err(refusal) => log.push(refusal),
    }
}

/// Tells what is wrong with the types of properties.
fn tell_properties(
    alloc: Global,
    metas: &Metas,
    names: &TypeNames,
    fields: &[Field],
    log: &mut RefusalList,
) -> Result<(), ListFault>
    ensures { OnOk result (log.new ≡ log.old ++ flat_map (λ f. declared.property_told (declared.property_shape metas.now names.now f)) (map field_view fields.now)) }
{
    for field in fields {
        let shape = property_shape(alloc, metas, names, field)?;
        tell_property(log, shape)?;
    }
    Ok(())
}

/// Tells what is wrong with a class after others of these names.
#[tactic(auto, unfolding(crate::specs::Written::class_told))]
fn tell_class(
    alloc: Global,
    metas: &Metas,
    names: &TypeNames,
    earlier: &NameIndex,
    class: &ClassDecl,
    log: &mut RefusalList,
) -> Result<(), ListFault>
    ensures { OnOk result (log.new ≡ log.old ++ declared.class_told metas.now names.now earlier.now (class_view class.now)) }
{
    let repeated = earlier.has(class.name.as_str());
    tell_if(log, repeated, RefusalKind::SameName, class.place)?;
    tell_supers(metas, names, class.supers.as_slice(), log)?;
    tell_properties(alloc, metas, names, class.features.as_slice(), log)
}

fn tell_in(
    alloc: Global,
    metas: &Metas,
    names: &TypeNames,
    earlier: &NameIndex,
    unit: &Unit,
    log: &mut RefusalList,
) -> Result<(), ListFault>
    ensures { OnOk result (log.new ≡ log.old ++ declared.told_in metas.now names.now earlier.now (unit_view unit.now)) }
{
    match unit {
        Unit::Class(class) => tell_class(alloc, metas, names, earlier, class, log),
        Unit::Main(_, _) => Ok(()),
        Unit::Helper(_) => Ok(()),
        Unit::Constructor(_) => Ok(()),
        Unit::Mapping(_) => Ok(()),
    }
}

/// Tells what is wrong with the intermediate classes one by one: SameName of classes, UnknownType and Ambiguous of superclasses and
/// types, WrongType of collections of collections.
pub fn tell_classes(
    alloc: Global,
    metas: &Metas,
    names: &TypeNames,
    units: &[Unit],
    log: &mut RefusalList,
) -> Result<(), ListFault>
    ensures { OnOk result (log.new ≡ log.old ++ declared.classes_told metas.now names.now [] (map unit_view units.now)) }
{
    let mut earlier = NameIndex::new(alloc);
    for unit in units {
        tell_in(alloc, metas, names, &earlier, unit, log)?;
        earlier = with_class_name(alloc, earlier, unit)?;
    }
    Ok(())
}
