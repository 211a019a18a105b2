//! The metamodels of a transformation with its intermediate classes.

ghost use Rattle.std.specs.Prelude.{◌≡◌, ◌++◌, [], None, length, map, IfOk, OnOk};
ghost use Rattle.qvt_metas.specs.Extended.{AreGiven};
ghost use Rattle.qvt_metas.specs.Search.{AreLive, IsAcyclic};
ghost use Rattle.qvt_tree_types.specs.Module.{unit_view};
ghost use Rattle.qvt_types_paths.specs.ModelTypes.{class_names};
ghost use Rattle.qvt_types_classes.specs.Inherited.{numbered_from};
ghost use Rattle.qvt_types_classes.specs.Written.{all_declared, classes_told};
ghost use Rattle.qvt_types_classes.specs.Classes as words;

use crate::cycles::{cycle_flags, tell_cycles, uncycled_all};
use crate::declared::{Declared, Property, all_declared};
use crate::numbered::{all_properties, numbered, property_lists};
use crate::reading::{are_apart, read_all};
use crate::telling::tell_classes;
use qvt_base::copied::Copied;
use qvt_base::list_fault::ListFault;
use qvt_base::lists::ClassNoList;
use qvt_base::numbers::{ClassNo, FeatureNo};
use qvt_base::seq::Seq;
use qvt_meta_given::room::has_room_for;
use qvt_metas::given::{ClassData, ClassDataList, FeatureData, FeatureDataList};
use qvt_metas::metas::Metas;
use qvt_tree_types::module::Unit;
use qvt_types_paths::model_types::TypeNames;
use qvt_types_paths::told::RefusalList;
use std::alloc::Global;

/// Classes, none of which is above itself, as they are read; and what is told of their properties of one name. Where there are no such
/// properties the classes are read as they are. What they inherit is listed first, so that its room is asked for in each case.
#[tactic(auto, unfolding(crate::specs::Classes::read_classes, crate::specs::Classes::all_same_told))]
fn read_classes(
    alloc: Global,
    classes: Seq<Declared>,
    log: &mut RefusalList,
) -> Result<Seq<Declared>, ListFault>
    requires live { AreLive (numbered_from 0 classes) }
    requires acyclic { IsAcyclic (numbered_from 0 classes) }
    ensures read { IfOk result (λ ds. ds ≡ words.read_classes classes) }
    ensures ranked { IfOk result (λ ds. words.HaveRanks (numbered_from 0 classes)) }
    ensures told { OnOk result (log.new ≡ log.old ++ words.all_same_told classes) }
{
    let infos = numbered(alloc, classes.as_slice())?;
    let properties = all_properties(alloc, classes.as_slice())?;
    let lists = property_lists(alloc, infos.as_slice())?;
    let apart = are_apart(alloc, properties.as_slice())?;
    if apart {
        return Ok(classes);
    }
    let read = read_all(
        alloc,
        properties.as_slice(),
        &lists,
        classes.as_slice(),
        log,
    )?;
    Ok(read)
}

/// The classes as they are read, and what is told of them by what stands above them.
#[tactic(auto, unfolding(crate::specs::Classes::own_classes))]
fn classes_above(
    alloc: Global,
    written: &[Declared],
    log: &mut RefusalList,
) -> Result<Seq<Declared>, ListFault>
    requires { words.HaveSupers written.now }
    ensures read { IfOk result (λ ds. ds ≡ words.read_classes (words.own_classes written.now)) }
    ensures ranked { IfOk result (λ ds. words.HaveRanks (numbered_from 0 (words.own_classes written.now))) }
    ensures told { OnOk result (log.new ≡ log.old ++ words.above_told written.now) }
{
    let flags = cycle_flags(alloc, written)?;
    tell_cycles(flags.as_slice(), written, log)?;
    let own = uncycled_all(alloc, flags.as_slice(), written)?;
    read_classes(alloc, own, log)
}

fn feature_data(alloc: Global, properties: &[Property]) -> Result<FeatureDataList, ListFault>
    ensures { IfOk result (λ fs. fs ≡ map words.feature_data properties.now) }
{
    let mut features = Seq::new(alloc);
    for property in properties {
        features.push(FeatureData {
            name: property.name.copy(alloc)?,
            shape: property.shape,
        })?;
    }
    Ok(features)
}

/// The number of the class at a place. It is refused as out of memory where it does not fit 32 bits.
fn super_number(element: u32, place: u32) -> Result<ClassNo, ListFault>
    ensures { IfOk result (λ c. c ≡ words.super_number element place) }
{
    let Some(next) = element.checked_add(1) else {
        return Err(ListFault::NoMemory);
    };
    match next.checked_add(place) {
        Some(number) => Ok(ClassNo(number)),
        None => Err(ListFault::NoMemory),
    }
}

fn super_numbers(alloc: Global, element: u32, places: &[u32]) -> Result<ClassNoList, ListFault>
    ensures { IfOk result (λ cs. cs ≡ map (words.super_number element) places.now) }
{
    let mut numbers = Seq::new(alloc);
    for place in places {
        numbers.push(super_number(element, *place)?)?;
    }
    Ok(numbers)
}

fn class_data(alloc: Global, element: u32, class: &Declared) -> Result<ClassData, ListFault>
    ensures { IfOk result (λ c. c ≡ words.class_data element class.now) }
{
    Ok(ClassData {
        name: class.name.copy(alloc)?,
        supers: super_numbers(alloc, element, class.supers.as_slice())?,
        features: feature_data(alloc, class.properties.as_slice())?,
    })
}

fn all_data(
    alloc: Global,
    names: &TypeNames,
    classes: &[Declared],
) -> Result<ClassDataList, ListFault>
    ensures { IfOk result (λ cs. cs ≡ words.all_data names.now classes.now) }
{
    let element = names.element().0;
    let mut data = Seq::new(alloc);
    for class in classes {
        data.push(class_data(alloc, element, class)?)?;
    }
    Ok(data)
}

/// The metamodels with Element and the classes. It is refused as out of memory where the numbers do not fit 32 bits.
fn extended_by(
    alloc: Global,
    metas: &Metas,
    names: &TypeNames,
    classes: &[Declared],
) -> Result<Metas, ListFault>
    requires element { metas.now.element ≡ None }
    requires given { AreGiven metas.now (words.all_data names.now classes.now) }
    ensures { IfOk result (λ m. m ≡ words.extended_by metas.now names.now classes.now) }
{
    let data = all_data(alloc, names, classes)?;
    if !has_room_for(metas, data.as_slice()) {
        return Err(ListFault::NoMemory);
    }
    match metas.extended(&data) {
        Ok(extended) => Ok(extended),
        Err(_) => Err(ListFault::NoMemory),
    }
}

fn add_flags(flags: &mut Seq<bool>, properties: &[Property]) -> Result<(), ListFault>
    ensures { OnOk result (flags.new ≡ flags.old ++ map (λ p. p.typed) properties.now) }
{
    for property in properties {
        flags.push(property.typed)?;
    }
    Ok(())
}

fn typed_flags(alloc: Global, classes: &[Declared]) -> Result<Seq<bool>, ListFault>
    ensures { IfOk result (λ flags. flags ≡ words.typed_flags classes.now) }
{
    let mut flags = Seq::new(alloc);
    for class in classes {
        add_flags(&mut flags, class.properties.as_slice())?;
    }
    Ok(flags)
}

/// Metamodels with the intermediate classes of a transformation.
pub struct Extended {
    pub metas: Metas,
    /// For each property of the intermediate classes whether its type is known, in the order of the numbers.
    pub typed: Seq<bool>,
}

impl Drop for Extended {
    fn drop(self) {
        let Extended { metas, typed } = self;
    }
}

/// The metamodels with Element and the intermediate classes, and what is told of these. It is refused as out of memory where numbers
/// do not fit 32 bits.
pub fn with_classes(
    alloc: Global,
    metas: &Metas,
    names: &TypeNames,
    units: &[Unit],
    log: &mut RefusalList,
) -> Result<Extended, ListFault>
    requires element { metas.now.element ≡ None }
    requires above { names.now.element ≡ length metas.now.classes }
    requires classes { names.now.classes ≡ class_names (map unit_view units.now) }
    ensures metas { IfOk result (λ e. e.metas ≡ words.extended_by metas.now names.now (words.read_classes (words.own_classes (all_declared metas.now names.now (map unit_view units.now))))) }
    ensures typed { IfOk result (λ e. e.typed ≡ words.typed_flags (words.read_classes (words.own_classes (all_declared metas.now names.now (map unit_view units.now))))) }
    ensures told { OnOk result (log.new ≡ log.old ++ (classes_told metas.now names.now [] (map unit_view units.now) ++ words.above_told (all_declared metas.now names.now (map unit_view units.now)))) }
{
    tell_classes(alloc, metas, names, units, log)?;
    let written = all_declared(alloc, metas, names, units)?;
    let read = classes_above(alloc, written.as_slice(), log)?;
    Ok(Extended {
        metas: extended_by(alloc, metas, names, read.as_slice())?,
        typed: typed_flags(alloc, read.as_slice())?,
    })
}

/// Whether the type of a feature is known, where those of intermediate classes have the numbers from the first on.
pub fn is_typed(first: u32, flags: &[bool], feature: FeatureNo) -> bool
    ensures { result ≡ words.is_typed first flags.now feature.0 }
{
    if feature.0 < first {
        return true;
    }
    let at = (feature.0 - first) as usize;
    if at < flags.len() { flags[at] } else { true }
}
