//! The conditions of classes that are declared beside metamodels, asked at run time.

ghost use Rattle.std.specs.Prelude.{◌≡◌, ◌<◌, ◌+◌, ℕ, None, IfOk, IsTrue, IsFalse};
ghost use Rattle.qvt_metas.specs.Extended.{extended, given_classes, given_features, AreGiven, HasRoomFor};
ghost use Rattle.qvt_meta_given.specs.Given.{has_room_for, are_live};

use crate::live::are_live;
use crate::loose::are_loose;
use crate::named::all_differ;
use crate::room::has_room_for;
use qvt_base::list_fault::ListFault;
use qvt_meta_tables::cycle::first_cycle;
use qvt_meta_tables::tables::tables_of;
use qvt_metamodel::copied::joined;
use qvt_metas::extending::{given_classes, given_features};
use qvt_metas::given::{ClassData, ClassDataList};
use qvt_metas::info::{ClassInfo, FeatureInfo};
use qvt_metas::metas::Metas;
use std::alloc::Global;

/// The classes of the metamodels, Element, and the given classes.
#[tactic(auto, unfolding(qvt_metamodel::specs::Extended::extended))]
fn all_classes(
    alloc: Global,
    metas: &Metas,
    classes: &[ClassData],
) -> Result<Vec<ClassInfo>, ListFault>
    requires { IsTrue (has_room_for metas.now classes.now) }
    ensures { IfOk result (λ v. v.items ≡ (extended metas.now classes.now).classes) }
{
    metas.are_well_formed();
    let first = metas.feature_infos().len() as u32;
    let given = given_classes(alloc, metas.metamodel_count(), first, classes)?;
    joined(alloc, metas.class_infos(), given)
}

/// The features of the metamodels and of the given classes.
#[tactic(auto, unfolding(qvt_metamodel::specs::Extended::extended))]
fn all_features(
    alloc: Global,
    metas: &Metas,
    classes: &[ClassData],
) -> Result<Vec<FeatureInfo>, ListFault>
    requires { IsTrue (has_room_for metas.now classes.now) }
    ensures { IfOk result (λ v. v.items ≡ (extended metas.now classes.now).features) }
{
    let given = given_features(alloc, metas.class_count() + 1, classes)?;
    joined(alloc, metas.feature_infos(), given)
}

/// Whether no given class is above itself and no given class has two features of one name.
fn are_sound(alloc: Global, metas: &Metas, classes: &[ClassData]) -> Result<bool, ListFault>
    requires room { IsTrue (has_room_for metas.now classes.now) }
    requires live { IsTrue (are_live metas.now classes.now) }
    ensures sound { IfOk result (λ b. IsTrue b → AreSound metas.now classes.now) }
    ensures refused { IfOk result (λ b. IsFalse b → AreSound metas.now classes.now → ⊥) }
{
    let before = metas.class_count() as usize;
    let infos = all_classes(alloc, metas, classes)?;
    let count = infos.len() as u32;
    if first_cycle(alloc, infos.as_slice(), count)?.is_some() {
        return Ok(false);
    }
    let features = all_features(alloc, metas, classes)?;
    let tables = tables_of(alloc, infos.as_slice(), count, usize::MAX)?;
    let differ = all_differ(
        alloc,
        features.as_slice(),
        &tables.lists,
        before + 1,
        infos.len(),
    )?;
    Ok(differ)
}

ghost use Rattle.qvt_meta_given.specs.Given.{AreSound};

/// Whether classes can come after metamodels that have no class Element: their superclasses are
/// given classes, none is above itself, types are there, no feature is a containment or has a lower
/// bound above 0, no class has two features of one name, and the numbers fit.
pub fn are_given(alloc: Global, metas: &Metas, classes: &ClassDataList) -> Result<bool, ListFault>
    ensures given { IfOk result (λ b. IsTrue b → metas.now.element ≡ None → AreGiven metas.now classes.now) }
    ensures room { IfOk result (λ b. IsTrue b → metas.now.element ≡ None → HasRoomFor metas.now classes.now) }
    ensures refused { IfOk result (λ b. IsFalse b → metas.now.element ≡ None → AreGiven metas.now classes.now → HasRoomFor metas.now classes.now → ⊥) }
{
    let given = classes.as_slice();
    if !has_room_for(metas, given) {
        return Ok(false);
    }
    if !are_live(metas, given) {
        return Ok(false);
    }
    if !are_loose(given) {
        return Ok(false);
    }
    let sound = are_sound(alloc, metas, given)?;
    Ok(sound)
}
