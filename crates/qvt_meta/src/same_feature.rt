//! The check of the names among all features of a class.

ghost use Rattle.std.specs.Prelude.{◌≡◌, ◌<◌, ◌^◌, ℕ, [], map, length, IsTrue, IfOk, slice_index_or};
ghost use Rattle.qvt_metas.specs.Metamodels.{among_features, nowhere_feature, features_of};
ghost use Rattle.qvt_metas.specs.Added.{numbered};
ghost use Rattle.qvt_metamodel.specs.Lists.{all_lists};
ghost use Rattle.qvt_meta_repeats.specs.Flags.{name_flags};
ghost use Rattle.qvt_meta.specs.Numbers.{AreNumbers, StandForNames};
ghost use Rattle.qvt_metamodel.specs.Checks.{repeated_feature, same_feature};

use crate::adding::Numbers;
use qvt_base::copied::Copied;
use qvt_base::list_fault::ListFault;
use qvt_base::numbers::FeatureNo;
use qvt_base::text::Text;
use qvt_meta_names::feature_tables::{feature_table, name_numbers};
use qvt_meta_repeats::repeats::Repeats;
use qvt_metamodel::declared::MetaData;
use qvt_metamodel::lists::FeatureLists;
use qvt_metas::info::FeatureInfo;
use std::alloc::Global;

/// For each feature the number of the first one that has its name.
fn numbers_of_names(alloc: Global, features: &[FeatureInfo]) -> Result<Vec<u32>, ListFault>
    requires { length features.now < 2 ^ 32 }
    ensures { IfOk result (λ v. StandForNames features.now v.items) }
{
    let table = feature_table(alloc, features, features.len() as u32)?;
    let numbers = name_numbers(alloc, &table, features)?;
    Ok(numbers)
}

/// Which features of the classes have a name that an earlier one of the class has.
fn name_repeats<'a>(
    alloc: Global,
    meta: &MetaData,
    numbers: &Numbers,
    lists: &'a FeatureLists,
) -> Result<Repeats<'a>, ListFault>
    requires numbers { AreNumbers meta.now numbers.now }
    requires lists { (c : ℕ) → slice_index_or (all_lists lists.now) c [] ≡ features_of (numbered meta.now) c }
    ensures { IfOk result (λ r. (c : ℕ) → slice_index_or r c [] ≡ name_flags (map (λ f. (slice_index_or numbers.now.features.items f.0 nowhere_feature).name) (slice_index_or (all_lists lists.now) c []))) }
{
    let name_numbers = numbers_of_names(alloc, numbers.features.as_slice())?;
    let repeats = Repeats::new(alloc, name_numbers.as_slice(), lists)?;
    Ok(repeats)
}

/// The name of the feature at a place of a list.
fn name_at(
    alloc: Global,
    features: &[FeatureInfo],
    list: &[FeatureNo],
    place: usize,
) -> Result<Text, ListFault>
    requires place { place < length list.now }
    requires live { (f : ℕ) → IsTrue (among_features f list.now) → f < length features.now }
    ensures { IfOk result (λ name. name ≡ slice_index_or (map (λ f. (slice_index_or features.now f.0 nowhere_feature).name) list.now) place []) }
{
    let feature = list[place];
    features[feature.0 as usize].name.copy(alloc)
}

/// A name that two different features of a class have.
fn repeated_feature(
    alloc: Global,
    meta: &MetaData,
    numbers: &Numbers,
    lists: &FeatureLists,
    repeats: &Repeats,
    class: usize,
) -> Result<Option<Text>, ListFault>
    requires numbers { AreNumbers meta.now numbers.now }
    requires lists { (c : ℕ) → slice_index_or (all_lists lists.now) c [] ≡ features_of (numbered meta.now) c }
    requires repeats { (c : ℕ) → slice_index_or repeats.now c [] ≡ name_flags (map (λ f. (slice_index_or numbers.now.features.items f.0 nowhere_feature).name) (slice_index_or (all_lists lists.now) c [])) }
    ensures { IfOk result (λ o. o ≡ repeated_feature (numbered meta.now) class) }
{
    let _classes = &meta.classes;
    let Some(place) = repeats.first(class) else {
        return Ok(None);
    };
    let features = numbers.features.as_slice();
    let name = name_at(alloc, features, lists.at(class), place)?;
    Ok(Some(name))
}

/// The class and the name that SameFeature tells.
#[tactic(auto, unfolding(qvt_metamodel::specs::Checks::same_feature))]
pub fn same_feature(
    alloc: Global,
    meta: &MetaData,
    numbers: &Numbers,
    lists: &FeatureLists,
) -> Result<Option<(Text, Text)>, ListFault>
    requires numbers { AreNumbers meta.now numbers.now }
    requires lists { (c : ℕ) → slice_index_or (all_lists lists.now) c [] ≡ features_of (numbered meta.now) c }
    ensures { IfOk result (λ o. o ≡ same_feature meta.now) }
{
    let repeats = name_repeats(alloc, meta, numbers, lists)?;
    for (at, class) in meta.classes.as_slice().iter().enumerate() {
        let name = repeated_feature(alloc, meta, numbers, lists, &repeats, at)?;
        if let Some(name) = name {
            return Ok(Some((class.name.copy(alloc)?, name)));
        }
    }
    Ok(None)
}
