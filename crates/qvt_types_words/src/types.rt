//! Types over metamodels.

ghost use Rattle.std.specs.Prelude.{◌≡◌, IfOk};
ghost use Rattle.qvt_metas.specs.Metamodels.{is_one};
ghost use Rattle.qvt_types_words.specs.Types as types;

use qvt_base::copied::Copied;
use qvt_base::list_fault::ListFault;
use qvt_metas::info::{FeatureShape, TypeKind};
use qvt_metas::metas::Metas;
use qvt_tree_types::words::CollKind;
use qvt_types_data::boxed::Boxed;
use qvt_types_data::kinds::same_kind;
use qvt_types_data::ty::Ty;
use std::alloc::Global;

/// Whether the type is String.
pub fn is_string(t: &Ty) -> bool
    ensures { result ≡ types.is_string t.now }
{
    match t {
        Ty::Str => true,
        _ => false,
    }
}

/// Whether the type is that of null.
pub fn is_void(t: &Ty) -> bool
    ensures { result ≡ types.is_void t.now }
{
    matches!(t, Ty::Void)
}

/// Whether the first type conforms to the second.
pub fn conforms(metas: &Metas, t: &Ty, u: &Ty) -> bool
    ensures { result ≡ types.conforms metas.now t.now u.now }
{
    match t {
        Ty::Void => true,
        Ty::Boolean => match u {
            Ty::Boolean => true,
            _ => false,
        },
        Ty::Integer => match u {
            Ty::Integer => true,
            _ => false,
        },
        Ty::Str => is_string(u),
        Ty::Enum(k, e) => match u {
            Ty::Enum(l, f) => *k == *l && *e == *f,
            _ => false,
        },
        Ty::Class(c) => match u {
            Ty::Class(d) => metas.descends(*c, *d),
            _ => false,
        },
        Ty::Coll(k, a) => match u {
            Ty::Coll(l, b) => same_kind(*k, *l) && conforms(metas, a.get(), b.get()),
            _ => false,
        },
    }
}

/// The type to which the other conforms.
pub fn join(alloc: Global, metas: &Metas, t: &Ty, u: &Ty) -> Result<Option<Ty>, ListFault>
    ensures { IfOk result (λ o. o ≡ types.join metas.now t.now u.now) }
{
    if conforms(metas, t, u) {
        return Ok(Some(u.copy(alloc)?));
    }
    if conforms(metas, u, t) {
        return Ok(Some(t.copy(alloc)?));
    }
    Ok(None)
}

/// The item type under all collections; a type that is no collection is its own.
pub fn innermost(t: &Ty) -> &Ty
    ensures { result.now ≡ types.innermost t.now }
{
    match t {
        Ty::Coll(_, item) => innermost(item.get()),
        other => other,
    }
}

/// Whether collections of the kind are ordered.
pub fn is_ordered(kind: CollKind) -> bool
    ensures { result ≡ types.is_ordered kind }
{
    match kind {
        CollKind::Sequence => true,
        CollKind::OrderedSet => true,
        CollKind::Set => false,
        CollKind::Bag => false,
    }
}

/// The kind of what is collected from a kind.
pub fn collected_kind(kind: CollKind) -> CollKind
    ensures { result ≡ types.collected_kind kind }
{
    if is_ordered(kind) {
        CollKind::Sequence
    } else {
        CollKind::Bag
    }
}

/// The type of one value of a feature.
pub fn value_type(kind: TypeKind) -> Ty
    ensures { result ≡ types.value_type kind }
{
    match kind {
        TypeKind::Bool => Ty::Boolean,
        TypeKind::Int => Ty::Integer,
        TypeKind::Str => Ty::Str,
        TypeKind::Enum(metamodel, enumeration) => Ty::Enum(metamodel, enumeration),
        TypeKind::Class(class) => Ty::Class(class),
    }
}

/// The kind of a feature with these flags.
pub fn flags_kind(ordered: bool, unique: bool) -> CollKind
    ensures { result ≡ types.flags_kind ordered unique }
{
    if ordered {
        if unique {
            CollKind::OrderedSet
        } else {
            CollKind::Sequence
        }
    } else if unique {
        CollKind::Set
    } else {
        CollKind::Bag
    }
}

/// Whether the upper bound is 1.
fn is_one(upper: Option<u32>) -> bool
    ensures { result ≡ is_one upper }
{
    match upper {
        None => false,
        Some(n) => n == 1,
    }
}

/// The type of a property.
pub fn feature_type(alloc: Global, shape: FeatureShape) -> Result<Ty, ListFault>
    ensures { IfOk result (λ t. t ≡ types.feature_type shape) }
{
    let one = value_type(shape.kind);
    if is_one(shape.upper) {
        return Ok(one);
    }
    Ok(Ty::Coll(
        flags_kind(shape.ordered, shape.unique),
        Boxed::new(alloc, one)?,
    ))
}
