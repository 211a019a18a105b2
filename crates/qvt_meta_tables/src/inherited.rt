//! The list of a class: the features of its superclasses, each once, and then its own.

ghost use Rattle.std.specs.Prelude.{◌≡◌, ◌<◌, ◌≤◌, ◌∷◌, ◌++◌, ℕ, List, [], Some, drop, length, slice_index_or, slice_set, take, IfNone, IfOk, IfSome, IsTrue, OnOk};
ghost use Rattle.std.specs.List.{flat_map};
ghost use Rattle.qvt_base.specs.declared.numbers.FeatureNo.{FeatureNo};
ghost use Rattle.qvt_metamodel.specs.Metamodels.{each_once};
ghost use Rattle.qvt_metamodel.specs.Lists.{all_lists};
ghost use Rattle.qvt_meta_tables.specs.Placed.{IsOnce, HasJust, HasJustOf};

use crate::number_set::MarkedNumbers;
use qvt_base::list_fault::ListFault;
use qvt_base::lists::FeatureNoList;
use qvt_base::numbers::{ClassNo, FeatureNo};
use qvt_base::seq::Seq;
use qvt_metamodel::lists::FeatureLists;
use std::alloc::Global;

/// The features of the class that a list went on from, where it is known, and those put after them.
#[derive(Drop)]
pub struct SeenFeatures {
    pub class: Option<u32>,
    pub first: MarkedNumbers,
    pub later: MarkedNumbers,
}

/// Puts a feature last that is neither there nor among the first ones.
fn add_one(
    first: &MarkedNumbers,
    later: &mut MarkedNumbers,
    list: &mut FeatureNoList,
    feature: FeatureNo,
) -> Result<(), ListFault>
    requires { HasJust later.old list.old }
    ensures list { OnOk result ((gs : List FeatureNo) → HasJust first.now gs → list.new ≡ list.old ++ each_once (gs ++ list.old) (feature ∷ [])) }
    ensures later { OnOk result (HasJust later.new list.new) }
{
    if first.has(feature.0) || later.has(feature.0) {
        return Ok(());
    }
    later.put(feature.0)?;
    list.push(feature)
}

/// Puts those of the features last that are neither there nor among the first ones.
fn add_new(
    first: &MarkedNumbers,
    later: &mut MarkedNumbers,
    list: &mut FeatureNoList,
    features: &[FeatureNo],
) -> Result<(), ListFault>
    requires { HasJust later.old list.old }
    ensures list { OnOk result ((gs : List FeatureNo) → HasJust first.now gs → list.new ≡ list.old ++ each_once (gs ++ list.old) features.now) }
    ensures later { OnOk result (HasJust later.new list.new) }
{
    for feature in features {
        add_one(first, later, list, *feature)?;
    }
    Ok(())
}

/// How many features two classes have in common at the front, as far as their lists tell at once.
fn shared(lists: &FeatureLists, one: u32, other: u32) -> usize
    ensures within { result ≤ length (slice_index_or (all_lists lists.now) other []) }
    ensures same { take result (slice_index_or (all_lists lists.now) one []) ≡ take result (slice_index_or (all_lists lists.now) other []) }
{
    let Some(first) = lists.front(one as usize) else {
        return 0;
    };
    let Some(second) = lists.front(other as usize) else {
        return 0;
    };
    if first.line == second.line {
        first.count.min(second.count)
    } else {
        0
    }
}

/// The features of a class behind those that it is known to share with this other.
fn beyond<'a>(lists: &'a FeatureLists, known: Option<u32>, class: u32) -> &'a [FeatureNo]
    ensures { (gs more : List FeatureNo) → IfSome known (λ k. gs ≡ slice_index_or (all_lists lists.now) k []) → each_once (gs ++ more) result.now ≡ each_once (gs ++ more) (slice_index_or (all_lists lists.now) class []) }
{
    let features = lists.at(class as usize);
    match known {
        None => features,
        Some(other) => {
            let (_, rest) = features.split_at(shared(lists, other, class));
            rest
        }
    }
}

/// The features of these classes that are not among the first ones, which are those of a class
/// where one is known, each once, whatever the second set held before.
fn joined(
    alloc: Global,
    known: Option<u32>,
    first: &MarkedNumbers,
    later: &mut MarkedNumbers,
    lists: &FeatureLists,
    classes: &[ClassNo],
) -> Result<FeatureNoList, ListFault>
    ensures { IfOk result (λ s. (gs : List FeatureNo) → HasJust first.now gs → IfSome known (λ k. gs ≡ slice_index_or (all_lists lists.now) k []) → s ≡ each_once gs (flat_map (λ s. slice_index_or (all_lists lists.now) s.0 []) classes.now)) }
{
    later.clear();
    let mut list = Seq::new(alloc);
    for class in classes {
        add_new(first, later, &mut list, beyond(lists, known, class.0))?;
    }
    Ok(list)
}

/// The place of the first of these classes that has features.
fn first_with(lists: &FeatureLists, classes: &[ClassNo]) -> Option<usize>
    ensures none { IfNone result (flat_map (λ s. slice_index_or (all_lists lists.now) s.0 []) classes.now ≡ []) }
    ensures within { IfSome result (λ at. at < length classes.now) }
    ensures rest { IfSome result (λ at. flat_map (λ s. slice_index_or (all_lists lists.now) s.0 []) classes.now ≡ flat_map (λ s. slice_index_or (all_lists lists.now) s.0 []) (drop at classes.now)) }
{
    for at in 0..classes.len() {
        if !lists.at(classes[at].0 as usize).is_empty() {
            return Some(at);
        }
    }
    None
}

/// How many features of these classes are not known to be features of this one too.
fn beyond_all(lists: &FeatureLists, superclass: u32, others: &[ClassNo]) -> usize
    ensures { result ≡ 0 → each_once (slice_index_or (all_lists lists.now) superclass []) (flat_map (λ s. slice_index_or (all_lists lists.now) s.0 []) others.now) ≡ [] }
{
    let mut count: usize = 0;
    for class in others {
        count = count.saturating_add(beyond(lists, Some(superclass), class.0).len());
    }
    count
}

/// Puts the numbers of these features into an empty set.
fn fill(set: &mut MarkedNumbers, features: &[FeatureNo]) -> Result<(), ListFault>
    requires { HasJust set.old [] }
    ensures { OnOk result (HasJust set.new features.now) }
{
    for feature in features {
        set.put(feature.0)?;
    }
    Ok(())
}

/// Has the features of this class as the first ones.
fn see(seen: &mut SeenFeatures, lists: &mut FeatureLists, class: u32) -> Result<(), ListFault>
    requires { HasJustOf (all_lists lists.old) seen.old.class seen.old.first }
    ensures lists { lists.new ≡ lists.old }
    ensures class { OnOk result (seen.new.class ≡ Some class) }
    ensures first { OnOk result (HasJust seen.new.first (slice_index_or (all_lists lists.old) class [])) }
{
    if seen.class == Some(class) {
        return Ok(());
    }
    seen.class = None;
    seen.first.clear();
    lists.take(lists.at(class as usize).len())?;
    fill(&mut seen.first, lists.at(class as usize))?;
    seen.class = Some(class);
    Ok(())
}

/// Puts the list of a class there that goes on from this superclass, where its superclasses before
/// that have no features.
fn put_after(
    alloc: Global,
    seen: &mut SeenFeatures,
    lists: &mut FeatureLists,
    class: u32,
    superclass: u32,
    others: &[ClassNo],
    own: &[FeatureNo],
) -> Result<(), ListFault>
    requires { HasJustOf (all_lists lists.old) seen.old.class seen.old.first }
    ensures lists { OnOk result (all_lists lists.new ≡ slice_set (all_lists lists.old) class (slice_index_or (all_lists lists.old) superclass [] ++ each_once (slice_index_or (all_lists lists.old) superclass []) (flat_map (λ s. slice_index_or (all_lists lists.old) s.0 []) others.now) ++ own.now)) }
    ensures seen { OnOk result (HasJustOf (all_lists lists.old) seen.new.class seen.new.first) }
{
    let count = beyond_all(lists, superclass, others);
    if count == 0 {
        return lists.go_on(alloc, class as usize, superclass as usize, own);
    }
    lists.take(count)?;
    see(seen, lists, superclass)?;
    let mut more = joined(
        alloc,
        Some(superclass),
        &seen.first,
        &mut seen.later,
        lists,
        others,
    )?;
    more.extend(own)?;
    lists.go_on(alloc, class as usize, superclass as usize, more.as_slice())
}

/// Puts the list of a class there, whether lists have features twice or not.
fn put_joined(
    alloc: Global,
    later: &mut MarkedNumbers,
    lists: &mut FeatureLists,
    class: u32,
    supers: &[ClassNo],
    own: &[FeatureNo],
) -> Result<(), ListFault>
    ensures { OnOk result (all_lists lists.new ≡ slice_set (all_lists lists.old) class (each_once [] (flat_map (λ s. slice_index_or (all_lists lists.old) s.0 []) supers.now) ++ own.now)) }
{
    let none = MarkedNumbers::new(alloc);
    let mut list = joined(alloc, None, &none, later, lists, supers)?;
    list.extend(own)?;
    lists.put(class as usize, list)
}

/// Puts the list of a class there. Where no list has a feature twice, it goes on from that of the
/// first superclass that has features.
fn put_by(
    alloc: Global,
    seen: &mut SeenFeatures,
    once: bool,
    lists: &mut FeatureLists,
    class: u32,
    supers: &[ClassNo],
    own: &[FeatureNo],
) -> Result<(), ListFault>
    requires once { IsTrue once → (c : ℕ) → IsOnce (slice_index_or (all_lists lists.old) c []) }
    requires seen { HasJustOf (all_lists lists.old) seen.old.class seen.old.first }
    ensures lists { OnOk result (all_lists lists.new ≡ slice_set (all_lists lists.old) class (each_once [] (flat_map (λ s. slice_index_or (all_lists lists.old) s.0 []) supers.now) ++ own.now)) }
    ensures seen { OnOk result (HasJustOf (all_lists lists.old) seen.new.class seen.new.first) }
{
    if !once || supers.is_empty() {
        return put_joined(alloc, &mut seen.later, lists, class, supers, own);
    }
    let at = first_with(lists, supers).unwrap_or(0);
    put_after(
        alloc,
        seen,
        lists,
        class,
        supers[at].0,
        &supers[at + 1..],
        own,
    )
}

/// Puts the list of a class there, by those of its superclasses and its own features.
pub(crate) fn put_list(
    alloc: Global,
    seen: &mut SeenFeatures,
    once: bool,
    lists: &mut FeatureLists,
    class: u32,
    supers: &[ClassNo],
    own: &[FeatureNo],
) -> Result<(), ListFault>
    requires once { IsTrue once → (c : ℕ) → IsOnce (slice_index_or (all_lists lists.old) c []) }
    requires seen { HasJustOf (all_lists lists.old) seen.old.class seen.old.first }
    ensures lists { OnOk result (all_lists lists.new ≡ slice_set (all_lists lists.old) class (each_once [] (flat_map (λ s. slice_index_or (all_lists lists.old) s.0 []) supers.now) ++ own.now)) }
    ensures seen { OnOk result (HasJustOf (all_lists lists.new) seen.new.class seen.new.first) }
{
    put_by(alloc, seen, once, lists, class, supers, own)?;
    if seen.class == Some(class) {
        seen.class = None;
    }
    Ok(())
}
