//! The checks of a metamodel by its names.

ghost use Rattle.std.specs.Prelude.{Bool, ◌≡◌, [], None, List, ℕ, map, option_map, IfOk};
ghost use Rattle.std.specs.Option.{option_copied};
ghost use Rattle.qvt_json.specs.Steps.{or_next};
ghost use Rattle.qvt_metamodel.specs.MetaData.{class_names};
ghost use Rattle.qvt_json.specs.Repeated.{repeated};
ghost use Rattle.qvt_metamodel.specs.Names.{primitive_names};
ghost use Rattle.qvt_metamodel.specs.Checks.{same_enum, same_name, unknown, unknown_in, unknown_type, type_names, first_in, is_below, bad_bounds, failing_feature};
ghost use Rattle.qvt_metamodel.specs.declared.declared.DeclaredClass.{DeclaredClass};
ghost use Rattle.qvt_metamodel.specs.declared.declared.DeclaredFeature.{DeclaredFeature};

use crate::name_set::NameSet;
use crate::names::{names_with, primitive_names, repeated};
use qvt_base::copied::Copied;
use qvt_base::list_fault::ListFault;
use qvt_base::text::Text;
use qvt_metamodel::declared::{DeclaredClass, DeclaredFeature, MetaData};
use qvt_metamodel::info::EnumInfo;
use std::alloc::Global;

/// The first enumeration whose name is taken, or literal that stands twice in its enumeration.
fn same_enum(
    alloc: Global,
    mut taken: NameSet,
    enums: &[EnumInfo],
) -> Result<Option<Text>, ListFault>
    ensures { IfOk result (λ o. o ≡ same_enum taken enums.now) }
{
    for item in enums {
        if taken.contains(&item.name) {
            return Ok(Some(item.name.copy(alloc)?));
        }
        let literals = item.literals.as_slice();
        if let Some(literal) = repeated(alloc, NameSet::new(alloc), literals)? {
            return Ok(Some(literal));
        }
        taken.add(alloc, item.name.as_str())?;
    }
    Ok(None)
}

/// The name that SameName tells.
#[tactic(auto, unfolding(qvt_metamodel::specs::Checks::same_name), using(crate::proofs::Passing::enum_names_differ))]
pub fn same_name(alloc: Global, meta: &MetaData) -> Result<Option<Text>, ListFault>
    ensures { IfOk result (λ o. o ≡ same_name meta.now) }
{
    let enums = meta.enums.as_slice();
    if let Some(name) = same_enum(alloc, primitive_names(alloc)?, enums)? {
        return Ok(Some(name));
    }
    let taken = names_with(alloc, primitive_names(alloc)?, enums)?;
    repeated(alloc, taken, meta.classes.as_slice())
}

/// The first of these names that is no class.
fn unknown_super<'a>(classes: &NameSet, supers: &'a [Text]) -> Option<&'a Text>
    ensures { option_copied result ≡ unknown classes.now supers.now }
{
    for name in supers {
        if !classes.contains(name) {
            return Some(name);
        }
    }
    None
}

/// The first type of these features that is none of these.
fn unknown_kind<'a>(types: &NameSet, features: &'a [DeclaredFeature]) -> Option<&'a Text>
    ensures { option_copied result ≡ unknown types.now (map (λ f. f.kind) features.now) }
{
    for feature in features {
        if !types.contains(&feature.kind) {
            return Some(&feature.kind);
        }
    }
    None
}

/// The first name in the class that is no class as a superclass must be, or no type.
fn unknown_in<'a>(classes: &NameSet, types: &NameSet, class: &'a DeclaredClass) -> Option<&'a Text>
    ensures { option_copied result ≡ or_next (unknown classes.now class.now.supers) (unknown types.now (map (λ f. f.kind) class.now.features)) }
{
    if let Some(name) = unknown_super(classes, class.supers.as_slice()) {
        return Some(name);
    }
    unknown_kind(types, class.features.as_slice())
}

/// The class and the name that UnknownType tells.
#[tactic(auto, unfolding(qvt_metamodel::specs::Checks::unknown_type))]
pub fn unknown_type(
    alloc: Global,
    classes: &NameSet,
    types: &NameSet,
    meta: &MetaData,
) -> Result<Option<(Text, Text)>, ListFault>
    requires classes { classes.now ≡ class_names meta.now }
    requires types { types.now ≡ type_names meta.now }
    ensures { IfOk result (λ o. o ≡ unknown_type meta.now) }
{
    for class in meta.classes.as_slice() {
        if let Some(name) = unknown_in(classes, types, class) {
            return Ok(Some((class.name.copy(alloc)?, name.copy(alloc)?)));
        }
    }
    Ok(None)
}

/// What may be wrong with a feature of a class.
pub trait FeatureTest {
    ghost fails: { Self → DeclaredClass → DeclaredFeature → Bool };

    fn fails(
        &self,
        alloc: Global,
        class: &DeclaredClass,
        feature: &DeclaredFeature,
    ) -> Result<bool, ListFault>
        ensures { IfOk result (λ b. b ≡ fails self.now class.now feature.now) };
}

/// The first feature of the class that fails.
fn feature_fault<'a, T: FeatureTest>(
    alloc: Global,
    test: &T,
    class: &'a DeclaredClass,
) -> Result<Option<&'a Text>, ListFault>
    ensures { IfOk result (λ o. option_map (λ name. (class.now.name, name)) (option_copied o) ≡ failing_feature (T.fails test.now) class.now) }
{
    for feature in class.features.as_slice() {
        if test.fails(alloc, class, feature)? {
            return Ok(Some(&feature.name));
        }
    }
    Ok(None)
}

/// The first feature of these classes that fails, with its class.
pub fn first_fault<T: FeatureTest>(
    alloc: Global,
    test: &T,
    classes: &[DeclaredClass],
) -> Result<Option<(Text, Text)>, ListFault>
    ensures { IfOk result (λ o. o ≡ first_in (failing_feature (T.fails test.now)) classes.now) }
{
    for class in classes {
        if let Some(name) = feature_fault(alloc, test, class)? {
            return Ok(Some((class.name.copy(alloc)?, name.copy(alloc)?)));
        }
    }
    Ok(None)
}

/// A lower bound above the upper one.
struct BoundsTest {}

impl FeatureTest for BoundsTest {
    ghost fails = { λ t k f. is_below f.lower f.upper };

    fn fails(
        &self,
        _: Global,
        _: &DeclaredClass,
        feature: &DeclaredFeature,
    ) -> Result<bool, ListFault> {
        match feature.upper {
            None => Ok(false),
            Some(upper) => Ok(upper < feature.lower),
        }
    }
}

/// The class and the feature that BadBounds tells.
#[tactic(auto, unfolding(qvt_metamodel::specs::Checks::bad_bounds))]
pub fn bad_bounds(alloc: Global, meta: &MetaData) -> Result<Option<(Text, Text)>, ListFault>
    ensures { IfOk result (λ o. o ≡ bad_bounds meta.now) }
{
    first_fault(alloc, &BoundsTest {}, meta.classes.as_slice())
}
