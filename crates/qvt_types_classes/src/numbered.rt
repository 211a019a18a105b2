//! Intermediate classes by number, and the properties of each with those that it inherits.

ghost use Rattle.std.specs.Prelude.{◌≡◌, ◌+◌, ◌<◌, ◌^◌, [], length, map, IfOk, IfSome, OnOk};
ghost use Rattle.qvt_metamodel.specs.Lists.{all_lists};
ghost use Rattle.qvt_metas.specs.Search.{AreLive, IsAcyclic};
ghost use Rattle.qvt_types_classes.specs.Classes.{HaveRanks};
ghost use Rattle.qvt_types_classes.specs.Inherited as inherited;

use crate::declared::{Declared, Property, nowhere_shape};
use qvt_base::copied::Copied;
use qvt_base::list_fault::ListFault;
use qvt_base::lists::ClassNoList;
use qvt_base::numbers::{ClassNo, FeatureNo, Place};
use qvt_base::seq::Seq;
use qvt_base::text::Text;
use qvt_cycle::lists::Positions;
use qvt_metamodel::lists::FeatureLists;
use qvt_metas::info::ClassInfo;
use qvt_metas::numbering::numbers_from;
use qvt_metas::tables::tables_of;
use std::alloc::Global;

fn class_numbers(alloc: Global, places: &[u32]) -> Result<ClassNoList, ListFault>
    ensures { IfOk result (λ cs. cs ≡ map inherited.class_number places.now) }
{
    let mut numbers = Seq::new(alloc);
    for place in places {
        numbers.push(ClassNo(*place))?;
    }
    Ok(numbers)
}

/// A class whose properties have the numbers from the first on.
fn numbered_class(alloc: Global, first: u32, class: &Declared) -> Result<ClassInfo, ListFault>
    requires { first + length class.now.properties < 2 ^ 32 }
    ensures { IfOk result (λ k. k ≡ inherited.numbered_class first class.now) }
{
    Ok(ClassInfo {
        metamodel: 0,
        name: class.name.copy(alloc)?,
        is_abstract: false,
        supers: class_numbers(alloc, class.supers.as_slice())?,
        own: numbers_from(alloc, first, class.properties.len())?,
    })
}

/// The number after as many more, where it fits 32 bits.
fn after(first: u32, count: usize) -> Option<u32>
    ensures sum { IfSome result (λ next. next ≡ first + count) }
    ensures fits { IfSome result (λ next. first + count < 2 ^ 32) }
{
    match u32::try_from(count) {
        Ok(count) => first.checked_add(count),
        Err(_) => None,
    }
}

/// The classes by number. It is refused as out of memory where the numbers of their properties do not fit 32 bits.
pub fn numbered(alloc: Global, classes: &[Declared]) -> Result<Vec<ClassInfo>, ListFault>
    ensures { IfOk result (λ v. v.items ≡ inherited.numbered_from 0 classes.now) }
{
    let mut infos = Seq::new(alloc);
    let mut first: u32 = 0;
    for class in classes {
        let Some(next) = after(first, class.properties.len()) else {
            return Err(ListFault::NoMemory);
        };
        infos.push(numbered_class(alloc, first, class)?)?;
        first = next;
    }
    Ok(infos.into_vec())
}

/// Puts copies of the properties last.
fn add_properties(
    alloc: Global,
    all: &mut Seq<Property>,
    properties: &[Property],
) -> Result<(), ListFault>
    ensures { OnOk result (all.new ≡ all.old ++ properties.now) }
{
    for property in properties {
        all.push(property.copy(alloc)?)?;
    }
    Ok(())
}

ghost use Rattle.std.specs.Prelude.{◌++◌};

/// The properties of all classes, in the order of their numbers.
pub fn all_properties(alloc: Global, classes: &[Declared]) -> Result<Seq<Property>, ListFault>
    ensures { IfOk result (λ all. all ≡ inherited.all_properties classes.now) }
{
    let mut all = Seq::new(alloc);
    for class in classes {
        add_properties(alloc, &mut all, class.properties.as_slice())?;
    }
    Ok(all)
}

/// How many properties the lists of the classes of a text may take from superclasses where they do not go on in the list of one: one
/// for two bytes that the text may have. A text with more is refused as out of memory, since they grow with the classes times what
/// each inherits, and nothing of such a text is run.
const MOST_LISTED: usize = 1 << 17;

/// The numbers of the properties of each class, those that it inherits before its own. It is refused as out of memory where the
/// numbers of the classes do not fit 32 bits, or more properties are taken than there is room for.
pub fn property_lists(alloc: Global, classes: &[ClassInfo]) -> Result<FeatureLists, ListFault>
    requires live { AreLive classes.now }
    requires acyclic { IsAcyclic classes.now }
    ensures lists { IfOk result (λ ls. all_lists ls ≡ inherited.property_lists classes.now) }
    ensures ranked { IfOk result (λ ls. HaveRanks classes.now) }
{
    let Ok(count) = u32::try_from(classes.len()) else {
        return Err(ListFault::NoMemory);
    };
    let tables = tables_of(alloc, classes, count, MOST_LISTED)?;
    Ok(tables.lists)
}

/// What stands past the end.
fn no_property(alloc: Global) -> Property
    ensures { result ≡ inherited.no_property }
{
    Property {
        name: Text::new(alloc),
        shape: nowhere_shape(),
        typed: false,
        place: Place {
            line: 1,
            column: 1,
            offset: 0,
        },
    }
}

/// The property with this number.
fn property_at(alloc: Global, all: &[Property], feature: FeatureNo) -> Result<Property, ListFault>
    ensures { IfOk result (λ p. p ≡ inherited.property_at all.now feature) }
{
    let at = feature.0 as usize;
    if at < all.len() {
        all[at].copy(alloc)
    } else {
        Ok(no_property(alloc))
    }
}

/// The properties of the class at a place.
pub fn properties_at(
    alloc: Global,
    all: &[Property],
    list: &[FeatureNo],
) -> Result<Seq<Property>, ListFault>
    ensures { IfOk result (λ ps. ps ≡ map (inherited.property_at all.now) list.now) }
{
    let mut properties = Seq::new(alloc);
    for feature in list {
        properties.push(property_at(alloc, all, *feature)?)?;
    }
    Ok(properties)
}
