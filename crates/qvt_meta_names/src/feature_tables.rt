ghost use Rattle.std.specs.Prelude.{◌≡◌, ℕ, List, length, position, IfOk};
ghost use Rattle.std.specs.Str.{bytes_eq};
ghost use Rattle.std.specs.Map.{lookup};
ghost use Rattle.qvt_meta_names.specs.Named.{number_in, numbers_of};

use crate::adding::add_text;
use crate::name_table::NameTable;
use qvt_base::list_fault::ListFault;
use qvt_base::seq::Seq;
use qvt_metamodel::info::FeatureInfo;
use std::alloc::Global;

/// The features by name, of several of one name the first: its number stands for the name.
pub fn feature_table(
    alloc: Global,
    features: &[FeatureInfo],
    count: u32,
) -> Result<NameTable, ListFault>
    requires { length features.now ≡ count }
    ensures { IfOk result (λ t. (name : List ℕ) → lookup (bytes_eq name) t ≡ position (λ f. bytes_eq name f.name) features.now) }
{
    let mut table = NameTable::new(alloc);
    for number in 0..count {
        add_text(alloc, &mut table, &features[number as usize].name, number)?;
    }
    Ok(table)
}

/// The number that stands for the feature's name.
fn number_in(table: &NameTable, feature: &FeatureInfo) -> u32
    ensures { result ≡ number_in table.now feature.now.name }
{
    match table.find(feature.name.as_str()) {
        Some(number) => number,
        None => 0,
    }
}

/// For each feature the number that stands for its name.
pub fn name_numbers(
    alloc: Global,
    table: &NameTable,
    features: &[FeatureInfo],
) -> Result<Vec<u32>, ListFault>
    ensures { IfOk result (λ v. v.items ≡ numbers_of table.now features.now) }
{
    let mut numbers = Seq::new(alloc);
    for feature in features {
        numbers.push(number_in(table, feature))?;
    }
    Ok(numbers.into_vec())
}
