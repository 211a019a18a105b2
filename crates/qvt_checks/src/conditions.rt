//! The conditions of the store's calls, asked of a store at run time.

ghost use Rattle.std.specs.Prelude.{◌≡◌, IsTrue, IsFalse};
ghost use Rattle.std.specs.List.{list_all};
ghost use Rattle.qvt_metas.specs.Metamodels.{has_feature, is_containment};
ghost use Rattle.qvt_metas.specs.Named.{metamodel_at};
ghost use Rattle.qvt_store.specs.Contents.{AreNamed, is_named, is_slot};
ghost use Rattle.qvt_store.specs.Sound.{IsClassFor};
ghost use Rattle.qvt_store.specs.Place.{IsPlaceable};
ghost use Rattle.qvt_store.specs.Types.{is_bool, is_int, is_text_value, is_literal, is_instance, is_of_type, IsAssignable};

use qvt_base::numbers::{ClassNo, FeatureNo, Oid};
use qvt_metas::info::TypeKind;
use qvt_store::extent::{Extent, ExtentList};
use qvt_store::metas::Metas;
use qvt_store::put::find_place;
use qvt_store::store::Store;
use qvt_value::value::Value;

fn is_named_alike(metas: &Metas, extent: &Extent) -> bool
    ensures named { IsTrue result → is_named extent.now.name ≡ is_named (metamodel_at metas.now extent.now.metamodel).name }
    ensures full { is_named extent.now.name ≡ is_named (metamodel_at metas.now extent.now.metamodel).name → IsTrue result }
{
    extent.name.is_empty() == metas.metamodel_name(extent.metamodel).is_empty()
}

/// Whether each extent has a name exactly where its metamodel has one.
pub fn are_named(metas: &Metas, extents: &ExtentList) -> bool
    ensures named { IsTrue result → AreNamed metas.now extents.now }
    ensures full { AreNamed metas.now extents.now → IsTrue result }
{
    for extent in extents.as_slice() {
        if !is_named_alike(metas, extent) {
            return false;
        }
    }
    true
}

/// Whether objects of the class can be made in the extent.
pub fn is_class_for(store: &Store, class: ClassNo, extent: u32) -> bool
    ensures class { IsTrue result → IsClassFor store.now class.0 extent }
    ensures full { IsClassFor store.now class.0 extent → IsTrue result }
{
    let metas = store.metas();
    match store.extents().get(extent as usize) {
        None => false,
        Some(known) => {
            class.0 < metas.class_count()
                && metas.metamodel_of(class) == known.metamodel
                && !metas.is_abstract(class)
        }
    }
}

#[tactic(auto, using(crate::proofs::Places::there))]
fn has_feature(metas: &Metas, class: ClassNo, feature: FeatureNo) -> bool
    ensures { result ≡ has_feature metas.now class.0 feature.0 }
{
    match find_place(metas, class, feature) {
        None => false,
        Some(_) => true,
    }
}

/// Whether the object is there and its class has the feature.
pub fn is_slot(store: &Store, object: Oid, feature: FeatureNo) -> bool
    ensures { result ≡ is_slot store.now object.0 feature.0 }
{
    object.0 < store.len() && has_feature(store.metas(), store.class_of(object), feature)
}

/// Whether the value is a Boolean.
pub fn is_bool(value: &Value) -> bool
    ensures { result ≡ is_bool value.now }
{
    match value {
        Value::Bool(_) => true,
        _ => false,
    }
}

/// Whether the value is an Integer.
pub fn is_int(value: &Value) -> bool
    ensures { result ≡ is_int value.now }
{
    match value {
        Value::Int(_) => true,
        _ => false,
    }
}

/// Whether the value is a String.
pub fn is_text(value: &Value) -> bool
    ensures { result ≡ is_text_value value.now }
{
    match value {
        Value::Str(_) => true,
        _ => false,
    }
}

/// Whether the value is a literal that is there, of the enumeration.
pub fn is_literal(metas: &Metas, metamodel: u32, enumeration: u32, value: &Value) -> bool
    ensures { result ≡ is_literal metas.now metamodel enumeration value.now }
{
    match value {
        Value::Enum(literal) => {
            literal.metamodel == metamodel
                && literal.enumeration == enumeration
                && (literal.literal as usize) < metas.literals(metamodel, enumeration).len()
        }
        _ => false,
    }
}

/// Whether the value is an object that is there, of the class or one below it.
pub fn is_instance(store: &Store, class: ClassNo, value: &Value) -> bool
    ensures { result ≡ is_instance store.now class.0 value.now }
{
    match value {
        Value::Obj(object) => {
            object.0 < store.len() && store.metas().descends(store.class_of(*object), class)
        }
        _ => false,
    }
}

fn is_of_type(store: &Store, feature: FeatureNo, value: &Value) -> bool
    ensures { result ≡ is_of_type store.now feature.0 value.now }
{
    match store.metas().shape(feature).kind {
        TypeKind::Bool => is_bool(value),
        TypeKind::Int => is_int(value),
        TypeKind::Str => is_text(value),
        TypeKind::Enum(metamodel, enumeration) => {
            is_literal(store.metas(), metamodel, enumeration, value)
        }
        TypeKind::Class(class) => is_instance(store, class, value),
    }
}

fn are_of_type(store: &Store, feature: FeatureNo, values: &[Value]) -> bool
    ensures { result ≡ list_all (is_of_type store.now feature.0) values.now }
{
    values.iter().all(|value| is_of_type(store, feature, value))
}

/// Whether these values can be assigned to the slot, or put last into it.
pub fn can_assign(store: &Store, object: Oid, feature: FeatureNo, values: &[Value]) -> bool
    ensures assignable { IsTrue result → IsAssignable store.now object.0 feature.0 values.now }
    ensures full { IsAssignable store.now object.0 feature.0 values.now → IsTrue result }
{
    is_slot(store, object, feature) && are_of_type(store, feature, values)
}

/// Whether a slot that is no containment can be placed.
pub fn can_place(store: &Store, object: Oid, feature: FeatureNo, values: &[Value]) -> bool
    ensures placeable { IsTrue result → IsPlaceable store.now object.0 feature.0 values.now }
    ensures full { IsPlaceable store.now object.0 feature.0 values.now → IsFalse (is_containment store.now.metas feature.0) → IsTrue result }
{
    can_assign(store, object, feature, values)
        && store.slot(object, feature).is_empty()
        && !store.metas().shape(feature).containment
}
