//! What properties of intermediate classes hold, by their types.

ghost use Rattle.std.specs.Prelude.{◌≡◌, IfOk};
ghost use Rattle.qvt_tree_types.specs.Module.{field_view};
ghost use Rattle.qvt_tree_types.specs.View.{type_view};
ghost use Rattle.qvt_types_data.specs.declared.ty.Ty.{out-Ty};
ghost use Rattle.qvt_types_classes.specs.Written as declared;

use qvt_base::list_fault::ListFault;
use qvt_base::numbers::Place;
use qvt_metas::info::{FeatureShape, TypeKind};
use qvt_metas::metas::Metas;
use qvt_tree_types::module::Field;
use qvt_tree_types::types::TypeTree;
use qvt_tree_types::words::CollKind;
use qvt_types_data::refusal::{RefusalKind, TypingRefusal};
use qvt_types_data::ty::Ty;
use qvt_types_paths::model_types::TypeNames;
use qvt_types_paths::paths::written_type;
use std::alloc::Global;

/// The type of one value, where that is no collection.
fn value_kind(t: &Ty) -> Option<TypeKind>
    ensures { result ≡ declared.value_kind (out-Ty t.now) }
{
    match t {
        Ty::Void => None,
        Ty::Boolean => Some(TypeKind::Bool),
        Ty::Integer => Some(TypeKind::Int),
        Ty::Str => Some(TypeKind::Str),
        Ty::Enum(metamodel, enumeration) => Some(TypeKind::Enum(*metamodel, *enumeration)),
        Ty::Class(class) => Some(TypeKind::Class(*class)),
        Ty::Coll(_, _) => None,
    }
}

fn is_ordered(kind: CollKind) -> bool
    ensures { result ≡ declared.is_ordered kind }
{
    match kind {
        CollKind::Sequence => true,
        CollKind::OrderedSet => true,
        CollKind::Set => false,
        CollKind::Bag => false,
    }
}

fn is_unique(kind: CollKind) -> bool
    ensures { result ≡ declared.is_unique kind }
{
    match kind {
        CollKind::Set => true,
        CollKind::OrderedSet => true,
        CollKind::Bag => false,
        CollKind::Sequence => false,
    }
}

/// Several values, with the flags of the kind.
fn many(word: CollKind, kind: TypeKind) -> FeatureShape
    ensures { result ≡ declared.many word kind }
{
    FeatureShape {
        kind,
        lower: 0,
        upper: None,
        ordered: is_ordered(word),
        unique: is_unique(word),
        containment: false,
    }
}

/// At most one value.
fn one(kind: TypeKind) -> FeatureShape
    ensures { result ≡ declared.one kind }
{
    FeatureShape {
        kind,
        lower: 0,
        upper: Some(1),
        ordered: false,
        unique: true,
        containment: false,
    }
}

/// What a property of the type holds. None is a collection of collections.
fn shape_in(t: &Ty) -> Option<FeatureShape>
    ensures { result ≡ declared.shape_in (out-Ty t.now) }
{
    match t {
        Ty::Coll(word, item) => match value_kind(item.get()) {
            None => None,
            Some(kind) => Some(many(*word, kind)),
        },
        Ty::Void => None,
        Ty::Boolean => Some(one(TypeKind::Bool)),
        Ty::Integer => Some(one(TypeKind::Int)),
        Ty::Str => Some(one(TypeKind::Str)),
        Ty::Enum(metamodel, enumeration) => Some(one(TypeKind::Enum(*metamodel, *enumeration))),
        Ty::Class(class) => Some(one(TypeKind::Class(*class))),
    }
}

/// The place of a type as it is written.
fn type_place(written: &TypeTree) -> Place
    ensures { result ≡ declared.type_place (type_view written.now) }
{
    match written {
        TypeTree::Coll {
            kind: _,
            item: _,
            place,
        } => *place,
        TypeTree::Path(path) => path.place,
    }
}

fn shape_or(place: Place, shape: Option<FeatureShape>) -> Result<FeatureShape, TypingRefusal>
    ensures { result ≡ declared.shape_or place shape }
{
    match shape {
        None => Err(TypingRefusal {
            kind: RefusalKind::WrongType,
            place,
        }),
        Some(shape) => Ok(shape),
    }
}

fn shape_of_type(place: Place, t: Result<Ty, TypingRefusal>) -> Result<FeatureShape, TypingRefusal>
    ensures { result ≡ declared.shape_of_type place t }
{
    match t {
        Ok(t) => shape_or(place, shape_in(&t)),
        Err(refusal) => Err(refusal),
    }
}

/// What a property holds, or what is told of its type: UnknownType, Ambiguous, or WrongType of a collection of collections.
#[tactic(auto, unfolding(crate::specs::Written::property_shape))]
pub fn property_shape(
    alloc: Global,
    metas: &Metas,
    names: &TypeNames,
    field: &Field,
) -> Result<Result<FeatureShape, TypingRefusal>, ListFault>
    ensures { IfOk result (λ s. s ≡ declared.property_shape metas.now names.now (field_view field.now)) }
{
    let t = written_type(alloc, metas, names, &field.kind)?;
    Ok(shape_of_type(type_place(&field.kind), t))
}
