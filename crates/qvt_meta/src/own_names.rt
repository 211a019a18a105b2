//! The features that each class declares, by name.

ghost use Rattle.std.specs.Prelude.{◌≡◌, ℕ, List, Some, None, length, position, if◌then◌else◌, IfOk, OnOk};
ghost use Rattle.std.specs.Option.{option_or};
ghost use Rattle.std.specs.Str.{bytes_eq};
ghost use Rattle.std.specs.Map.{lookup};
ghost use Rattle.qvt_meta.specs.Places.{AreOwnNames};

use qvt_base::list_fault::ListFault;
use qvt_base::seq::Seq;
use qvt_meta_names::name_table::NameTable;
use qvt_metamodel::declared::{DeclaredClass, DeclaredFeature};
use std::alloc::Global;

/// Puts a feature's name last with this place, unless the name is there.
fn add_feature(
    alloc: Global,
    table: &mut NameTable,
    feature: &DeclaredFeature,
    place: u32,
) -> Result<(), ListFault>
    ensures { OnOk result ((name : List ℕ) → lookup (bytes_eq name) table.new ≡ option_or (lookup (bytes_eq name) table.old) (if bytes_eq name feature.now.name then Some place else None)) }
{
    if table.find(feature.name.as_str()).is_some() {
        return Ok(());
    }
    table.add(alloc, feature.name.as_str(), place)?;
    Ok(())
}

/// The places of as many features by name, of several of one name the first.
fn names_below(
    alloc: Global,
    features: &[DeclaredFeature],
    count: u32,
) -> Result<NameTable, ListFault>
    requires { length features.now ≡ count }
    ensures { IfOk result (λ t. (name : List ℕ) → lookup (bytes_eq name) t ≡ position (λ f. bytes_eq name f.name) features.now) }
{
    let mut table = NameTable::new(alloc);
    for place in 0..count {
        add_feature(alloc, &mut table, &features[place as usize], place)?;
    }
    Ok(table)
}

/// The same of any number of features. It is refused as out of memory where that does not fit 32 bits.
fn names_of(alloc: Global, features: &[DeclaredFeature]) -> Result<NameTable, ListFault>
    ensures { IfOk result (λ t. (name : List ℕ) → lookup (bytes_eq name) t ≡ position (λ f. bytes_eq name f.name) features.now) }
{
    let Ok(count) = u32::try_from(features.len()) else {
        return Err(ListFault::NoMemory);
    };
    names_below(alloc, features, count)
}

/// For each class the places of the features that it declares, by name, of several of one name the
/// first.
pub fn own_names(alloc: Global, classes: &[DeclaredClass]) -> Result<Seq<NameTable>, ListFault>
    ensures { IfOk result (AreOwnNames classes.now) }
{
    let mut tables = Seq::new(alloc);
    for class in 0..classes.len() {
        tables.push(names_of(alloc, classes[class].features.as_slice())?)?;
    }
    Ok(tables)
}
