//! Whether the superclasses and types of given classes are there.

ghost use Rattle.std.specs.Prelude.{◌≡◌};
ghost use Rattle.std.specs.List.{list_all};
ghost use Rattle.qvt_meta_given.specs.Given.{is_given_number, has_given_supers, is_live_kind, has_live_kinds, are_live};

use qvt_base::numbers::ClassNo;
use qvt_metas::given::{ClassData, FeatureData};
use qvt_metas::info::TypeKind;
use qvt_metas::metas::Metas;

/// Whether the number is that of a given class.
fn is_given_number(metas: &Metas, classes: &[ClassData], class: ClassNo) -> bool
    ensures { result ≡ is_given_number metas.now classes.now class }
{
    let first = metas.class_count();
    first < class.0 && (class.0 - first) as usize <= classes.len()
}

fn has_given_supers(metas: &Metas, classes: &[ClassData], class: &ClassData) -> bool
    ensures { result ≡ has_given_supers metas.now classes.now class.now }
{
    for superclass in class.supers.as_slice() {
        if !is_given_number(metas, classes, *superclass) {
            return false;
        }
    }
    true
}

/// Whether the numbers inside a type are those of what is there or comes.
fn is_live_kind(metas: &Metas, classes: &[ClassData], kind: TypeKind) -> bool
    ensures { result ≡ is_live_kind metas.now classes.now kind }
{
    match kind {
        TypeKind::Bool | TypeKind::Int | TypeKind::Str => true,
        TypeKind::Enum(metamodel, place) => {
            (place as usize) < metas.enumerations(metamodel).len()
        }
        TypeKind::Class(class) => {
            let first = metas.class_count();
            class.0 <= first || (class.0 - first) as usize <= classes.len()
        }
    }
}

fn has_live_kinds(metas: &Metas, classes: &[ClassData], class: &ClassData) -> bool
    ensures { result ≡ has_live_kinds metas.now classes.now class.now }
{
    for feature in class.features.as_slice() {
        if !is_live_kind(metas, classes, feature.shape.kind) {
            return false;
        }
    }
    true
}

fn have_given_supers(metas: &Metas, classes: &[ClassData]) -> bool
    ensures { result ≡ list_all (has_given_supers metas.now classes.now) classes.now }
{
    for class in classes {
        if !has_given_supers(metas, classes, class) {
            return false;
        }
    }
    true
}

fn have_live_kinds(metas: &Metas, classes: &[ClassData]) -> bool
    ensures { result ≡ list_all (has_live_kinds metas.now classes.now) classes.now }
{
    for class in classes {
        if !has_live_kinds(metas, classes, class) {
            return false;
        }
    }
    true
}

/// Whether the superclasses and types of the classes are there.
pub fn are_live(metas: &Metas, classes: &[ClassData]) -> bool
    ensures { result ≡ are_live metas.now classes.now }
{
    have_given_supers(metas, classes) && have_live_kinds(metas, classes)
}
