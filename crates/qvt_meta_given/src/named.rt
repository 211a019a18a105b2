//! Whether the features of classes have different names.

ghost use Rattle.std.specs.Prelude.{◌≡◌, ◌≤◌, ℕ, List, [], Some, None, drop, length, map, position, is_none, slice_index_or, if◌then◌else◌, IfOk, OnOk};
ghost use Rattle.std.specs.List.{list_all};
ghost use Rattle.std.specs.Map.{lookup};
ghost use Rattle.std.specs.Option.{option_or};
ghost use Rattle.std.specs.Str.{bytes_eq};
ghost use Rattle.qvt_metamodel.specs.Repeated.{repeated};
ghost use Rattle.qvt_metamodel.specs.Lists.{all_lists};
ghost use Rattle.qvt_meta_repeats.specs.Flags.{name_flags};
ghost use Rattle.qvt_meta_given.specs.Given.{name_in, are_named_apart, known_names};

use qvt_base::list_fault::ListFault;
use qvt_meta_names::feature_tables::name_numbers;
use qvt_meta_names::name_table::NameTable;
use qvt_meta_repeats::repeats::Repeats;
use qvt_metamodel::lists::FeatureLists;
use qvt_metas::info::FeatureInfo;
use std::alloc::Global;

/// Puts a name last, unless it is there.
fn add_first(alloc: Global, table: &mut NameTable, name: &str, number: u32) -> Result<(), ListFault>
    ensures { OnOk result ((other : List ℕ) → lookup (bytes_eq other) table.new ≡ option_or (lookup (bytes_eq other) table.old) (if bytes_eq other name.now then Some number else None)) }
{
    if table.find(name).is_some() {
        return Ok(());
    }
    table.add(alloc, name, number)?;
    Ok(())
}

/// The first places of the names of the features, after the empty one, which stands for what is past
/// the end. It is refused as out of memory where they do not fit 32 bits.
fn known_names(alloc: Global, features: &[FeatureInfo]) -> Result<NameTable, ListFault>
    ensures { IfOk result (λ t. (name : List ℕ) → lookup (bytes_eq name) t ≡ position (bytes_eq name) (known_names features.now)) }
{
    let mut table = NameTable::new(alloc);
    table.add(alloc, "", 0)?;
    let mut last: u32 = 0;
    for feature in features {
        let Some(number) = last.checked_add(1) else {
            return Err(ListFault::NoMemory);
        };
        add_first(alloc, &mut table, feature.name.as_str(), number)?;
        last = number;
    }
    Ok(table)
}

/// Which features have a name that an earlier one of their list has.
fn name_repeats<'a>(
    alloc: Global,
    features: &[FeatureInfo],
    lists: &'a FeatureLists,
) -> Result<Repeats<'a>, ListFault>
    ensures { IfOk result (λ r. r ≡ map (λ list. name_flags (map (name_in features.now) list)) (all_lists lists.now)) }
{
    let known = known_names(alloc, features)?;
    let numbers = name_numbers(alloc, &known, features)?;
    let repeats = Repeats::new(alloc, numbers.as_slice(), lists)?;
    Ok(repeats)
}

/// Whether no two of the features of a class have one name.
fn differ(repeats: &Repeats, class: usize) -> bool
    ensures { (names : List (List ℕ)) → slice_index_or repeats.now class [] ≡ name_flags names → result ≡ is_none (repeated [] names) }
{
    match repeats.first(class) {
        None => true,
        Some(_) => false,
    }
}

/// Whether in none of the lists from the first on two features have one name.
pub fn all_differ(
    alloc: Global,
    features: &[FeatureInfo],
    lists: &FeatureLists,
    first: usize,
    count: usize,
) -> Result<bool, ListFault>
    requires first { first ≤ count }
    requires count { length (all_lists lists.now) ≡ count }
    ensures { IfOk result (λ b. b ≡ list_all (are_named_apart features.now) (drop first (all_lists lists.now))) }
{
    let repeats = name_repeats(alloc, features, lists)?;
    for class in first..count {
        if !differ(&repeats, class) {
            return Ok(false);
        }
    }
    Ok(true)
}
