//! A metamodel's data as numbered data.

ghost use Rattle.std.specs.Prelude.{◌≡◌, ◌+◌, ◌<◌, ◌≤◌, ◌^◌, ℕ, List, length, map, IfOk, OnOk, ◌++◌, option_map, position, [], None, ◌∷◌};
ghost use Rattle.qvt_metamodel.specs.MetaData.{feature_names};
ghost use Rattle.qvt_meta.specs.Places.{ArePlaces, AreOwnNames, firsts_of};
ghost use Rattle.qvt_json.specs.Repeated.{repeated};
ghost use Rattle.std.specs.List.{list_all};
ghost use Rattle.qvt_metamodel.specs.Checks.{same_name};
ghost use Rattle.qvt_meta.specs.Numbers.{has_few_literals, AreNumbers};
ghost use Rattle.qvt_metas.specs.Added.{declared_at, place_in, kind_of, feature_count, feature_number, feature_info, feature_infos, numbers_from, class_info, class_infos, names_of};

use crate::own_names::own_names;
use qvt_base::copied::Copied;
use qvt_base::list_fault::ListFault;
use qvt_base::lists::{ClassNoList, FeatureNoList};
use qvt_base::numbers::{ClassNo, FeatureNo};
use qvt_base::seq::Seq;
use qvt_base::text::Text;
use qvt_meta_checks::name_set::NameSet;
use qvt_meta_checks::names::{names_of as distinct_names, place_in};
use qvt_meta_names::name_table::NameTable;
use qvt_metamodel::begin::Begin;
use qvt_metamodel::copied::copy_of_text;
use qvt_metamodel::declared::{DeclaredClass, DeclaredFeature, MetaData};
use qvt_metamodel::room::has_room;
use qvt_metas::info::{ClassInfo, EnumInfo, FeatureInfo, FeatureShape, MetamodelInfo, TypeKind};
use qvt_metas::numbering::numbers_from;
use std::alloc::Global;

/// Where the names of a metamodel that is added are: its enumerations, its classes, how many features
/// stand before those of each class, and before the end, and the features of each class.
#[derive(Drop)]
pub struct NamePlaces {
    pub enums: NameSet,
    pub classes: NameSet,
    pub firsts: Vec<u32>,
    pub own: Seq<NameTable>,
}

/// The numbered parts of one metamodel.
#[derive(Drop)]
pub struct Numbers {
    pub metamodels: Vec<MetamodelInfo>,
    pub classes: Vec<ClassInfo>,
    pub features: Vec<FeatureInfo>,
}

/// The type of this name, among these enumerations and classes.
fn kind_of(begin: Begin, enums: &NameSet, classes: &NameSet, name: &Text) -> TypeKind
    requires few_enums { length enums.now < 2 ^ 32 }
    requires few_classes { begin.class + length classes.now < 2 ^ 32 }
    ensures { result ≡ kind_of begin enums.now classes.now name.now }
{
    if name.as_str() == "Boolean" {
        return TypeKind::Bool;
    }
    if name.as_str() == "Integer" {
        return TypeKind::Int;
    }
    if name.as_str() == "String" {
        return TypeKind::Str;
    }
    match enums.position(name) {
        Some(place) => TypeKind::Enum(begin.metamodel, place as u32),
        None => TypeKind::Class(ClassNo(begin.class + place_in(classes, name) as u32)),
    }
}

/// The numbers of the superclasses.
fn supers_of(
    alloc: Global,
    begin: Begin,
    classes: &NameSet,
    supers: &[Text],
) -> Result<ClassNoList, ListFault>
    requires { begin.class + length classes.now < 2 ^ 32 }
    ensures { IfOk result (λ s. s ≡ map (λ name. record { 0 = begin.class + place_in classes.now name }) supers.now) }
{
    let mut numbers = Seq::new(alloc);
    for name in supers {
        numbers.push(ClassNo(begin.class + place_in(classes, name) as u32))?;
    }
    Ok(numbers)
}

#[tactic(auto, unfolding(qvt_metamodel::specs::Added::class_info))]
fn class_info(
    alloc: Global,
    begin: Begin,
    classes: &NameSet,
    first: u32,
    class: &DeclaredClass,
) -> Result<ClassInfo, ListFault>
    requires few_classes { begin.class + length classes.now < 2 ^ 32 }
    requires few_features { first + length class.now.features < 2 ^ 32 }
    ensures { IfOk result (λ k. k ≡ class_info begin classes.now first class.now) }
{
    Ok(ClassInfo {
        metamodel: begin.metamodel,
        name: class.name.copy(alloc)?,
        is_abstract: class.is_abstract,
        supers: supers_of(alloc, begin, classes, class.supers.as_slice())?,
        own: numbers_from(alloc, first, class.features.len())?,
    })
}

/// The classes, whose features have the numbers from the first on.
pub fn class_infos(
    alloc: Global,
    begin: Begin,
    names: &NameSet,
    classes: &[DeclaredClass],
) -> Result<Vec<ClassInfo>, ListFault>
    requires few_classes { begin.class + length names.now < 2 ^ 32 }
    requires few_features { begin.feature + feature_count classes.now < 2 ^ 32 }
    ensures { IfOk result (λ v. v.items ≡ class_infos begin names.now begin.feature classes.now) }
{
    let mut infos = Seq::new(alloc);
    let mut first = begin.feature;
    for class in classes {
        infos.push(class_info(alloc, begin, names, first, class)?)?;
        first += class.features.len() as u32;
    }
    Ok(infos.into_vec())
}

/// The place, among the features of the class at a place, of the one with this name, 0 where there is
/// none.
fn own_place(own: &Seq<NameTable>, classes: &[DeclaredClass], class: usize, name: &Text) -> usize
    requires { AreOwnNames classes.now own.now }
    ensures place { result ≡ place_in (feature_names (declared_at classes.now class)) name.now }
    ensures bound { result ≤ length (declared_at classes.now class).features }
{
    if class >= classes.len() {
        return 0;
    }
    let tables = own.as_slice();
    match tables[class].find(name.as_str()) {
        Some(place) => place as usize,
        None => 0,
    }
}

/// The number of the feature of this name that the class at a place declares.
#[tactic(auto, using(crate::proofs::Firsts::firsts_length))]
fn feature_number(
    begin: Begin,
    places: &NamePlaces,
    classes: &[DeclaredClass],
    class: usize,
    name: &Text,
) -> FeatureNo
    requires live { class ≤ length classes.now }
    requires places { ArePlaces begin places.now classes.now }
    ensures { result ≡ feature_number begin classes.now class name.now }
{
    let place = own_place(&places.own, classes, class, name);
    FeatureNo(begin.feature + (places.firsts[class] + place as u32))
}

/// The number of the opposite that a feature names.
fn opposite_of(
    begin: Begin,
    places: &NamePlaces,
    classes: &[DeclaredClass],
    feature: &DeclaredFeature,
) -> Option<FeatureNo>
    requires { ArePlaces begin places.now classes.now }
    ensures { result ≡ option_map (feature_number begin classes.now (place_in (names_of classes.now) feature.now.kind)) feature.now.opposite }
{
    match &feature.opposite {
        None => None,
        Some(name) => {
            let class = place_in(&places.classes, &feature.kind);
            Some(feature_number(begin, places, classes, class, name))
        }
    }
}

#[tactic(auto, unfolding(qvt_metamodel::specs::Added::feature_info))]
fn feature_info(
    alloc: Global,
    begin: Begin,
    places: &NamePlaces,
    classes: &[DeclaredClass],
    owner: u32,
    feature: &DeclaredFeature,
) -> Result<FeatureInfo, ListFault>
    requires { ArePlaces begin places.now classes.now }
    ensures { IfOk result (λ f. f ≡ feature_info begin places.now.enums classes.now owner feature.now) }
{
    Ok(FeatureInfo {
        owner: ClassNo(owner),
        name: feature.name.copy(alloc)?,
        shape: FeatureShape {
            kind: kind_of(begin, &places.enums, &places.classes, &feature.kind),
            lower: feature.lower,
            upper: feature.upper,
            ordered: feature.ordered,
            unique: feature.unique,
            containment: feature.containment,
        },
        opposite: opposite_of(begin, places, classes, feature),
    })
}

/// Puts the features of one class last.
fn add_features(
    alloc: Global,
    begin: Begin,
    places: &NamePlaces,
    classes: &[DeclaredClass],
    owner: u32,
    infos: &mut Seq<FeatureInfo>,
    features: &[DeclaredFeature],
) -> Result<(), ListFault>
    requires { ArePlaces begin places.now classes.now }
    ensures { OnOk result (infos.new ≡ infos.old ++ map (feature_info begin places.now.enums classes.now owner) features.now) }
{
    for feature in features {
        infos.push(feature_info(alloc, begin, places, classes, owner, feature)?)?;
    }
    Ok(())
}

/// The features of the classes, in order.
pub fn feature_infos(
    alloc: Global,
    begin: Begin,
    places: &NamePlaces,
    classes: &[DeclaredClass],
) -> Result<Vec<FeatureInfo>, ListFault>
    requires { ArePlaces begin places.now classes.now }
    ensures { IfOk result (λ v. v.items ≡ feature_infos begin places.now.enums classes.now begin.class classes.now) }
{
    let mut infos = Seq::new(alloc);
    let mut owner = begin.class;
    for class in classes {
        add_features(
            alloc,
            begin,
            places,
            classes,
            owner,
            &mut infos,
            class.features.as_slice(),
        )?;
        owner += 1;
    }
    Ok(infos.into_vec())
}

/// How many features stand before those of each class, and before the end.
fn firsts(alloc: Global, classes: &[DeclaredClass]) -> Result<Vec<u32>, ListFault>
    requires { feature_count classes.now < 2 ^ 32 }
    ensures { IfOk result (λ v. v.items ≡ firsts_of 0 classes.now) }
{
    let mut firsts = Seq::new(alloc);
    let mut count = 0;
    for class in classes {
        firsts.push(count)?;
        count += class.features.len() as u32;
    }
    firsts.push(count)?;
    Ok(firsts.into_vec())
}

/// Where the names of these are, no two of which are the same.
pub fn places_of(
    alloc: Global,
    enums: &[EnumInfo],
    classes: &[DeclaredClass],
) -> Result<NamePlaces, ListFault>
    requires enums { repeated [] (map (λ e. e.name) enums.now) ≡ None }
    requires classes { repeated [] (names_of classes.now) ≡ None }
    requires few { feature_count classes.now < 2 ^ 32 }
    ensures enums { IfOk result (λ p. p.enums ≡ map (λ e. e.name) enums.now) }
    ensures classes { IfOk result (λ p. p.classes ≡ names_of classes.now) }
    ensures firsts { IfOk result (λ p. p.firsts.items ≡ firsts_of 0 classes.now) }
    ensures own { IfOk result (λ p. AreOwnNames classes.now p.own) }
{
    Ok(NamePlaces {
        enums: distinct_names(alloc, enums)?,
        classes: distinct_names(alloc, classes)?,
        firsts: firsts(alloc, classes)?,
        own: own_names(alloc, classes)?,
    })
}

/// Whether each enumeration has so few literals that their numbers fit 32 bits.
fn have_few_literals(enums: &[EnumInfo]) -> bool
    ensures { result ≡ list_all has_few_literals enums.now }
{
    enums.iter().all(|e| e.literals.len() <= u32::MAX as usize)
}

/// A metamodel alone, its numbers from 0 on. Where they do not fit 32 bits, there is no memory.
pub fn numbers_of(alloc: Global, meta: &MetaData) -> Result<Numbers, ListFault>
    requires { same_name meta.now ≡ None }
    ensures { IfOk result (AreNumbers meta.now) }
{
    let enums = meta.enums.as_slice();
    let classes = meta.classes.as_slice();
    if !has_room(enums, classes) || !have_few_literals(enums) {
        return Err(ListFault::NoMemory);
    }
    let begin = Begin {
        metamodel: 0,
        class: 0,
        feature: 0,
    };
    let places = places_of(alloc, enums, classes)?;
    Ok(Numbers {
        metamodels: one_metamodel(alloc, meta)?,
        classes: class_infos(alloc, begin, &places.classes, classes)?,
        features: feature_infos(alloc, begin, &places, classes)?,
    })
}

/// The list of one metamodel.
fn one_metamodel(alloc: Global, meta: &MetaData) -> Result<Vec<MetamodelInfo>, ListFault>
    ensures { IfOk result (λ v. v.items ≡ record { name = meta.now.name; uri = meta.now.uri; enums = meta.now.enums } ∷ []) }
{
    let mut one = Seq::new(alloc);
    one.push(MetamodelInfo {
        name: meta.name.copy(alloc)?,
        uri: copy_of_text(alloc, &meta.uri)?,
        enums: meta.enums.copy(alloc)?,
    })?;
    Ok(one.into_vec())
}
