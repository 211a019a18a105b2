//! Types.

ghost use Rattle.std.specs.Prelude.{◌≡◌, IfOk};
ghost use Rattle.qvt_types_data.specs.Term.{same_type, ty_view};

use crate::boxed::Boxed;
use crate::kinds::same_kind;
use qvt_base::copied::Copied;
use qvt_base::list_fault::ListFault;
use qvt_base::numbers::ClassNo;
use qvt_tree_types::words::CollKind;
use std::alloc::Global;

/// A type of values. `Void` is the type of null.
#[derive(Debug)]
pub enum Ty {
    Void,
    Boolean,
    Integer,
    Str,
    /// An enumeration, by the numbers of its metamodel and itself.
    Enum(u32, u32),
    Class(ClassNo),
    /// Collections of the kind, with items of the type.
    Coll(CollKind, Boxed<Ty>),
}

impl Drop for Ty {
    #[cycle(ty)]
    fn drop(self) {
        match self {
            Ty::Void => {}
            Ty::Boolean => {}
            Ty::Integer => {}
            Ty::Str => {}
            Ty::Enum(metamodel, enumeration) => {}
            Ty::Class(class) => {}
            Ty::Coll(kind, item) => {}
        }
    }
}

impl Copied for Ty {
    fn copy(&self, _alloc: Global) -> Result<Ty, ListFault> {
        copy_of(self)
    }
}

/// The same type again. Types share the types of their items, so it takes no memory.
fn copy_of(of: &Ty) -> Result<Ty, ListFault>
    ensures { IfOk result (λ copy. copy ≡ of.now) }
{
    match of {
        Ty::Void => Ok(Ty::Void),
        Ty::Boolean => Ok(Ty::Boolean),
        Ty::Integer => Ok(Ty::Integer),
        Ty::Str => Ok(Ty::Str),
        Ty::Enum(metamodel, enumeration) => Ok(Ty::Enum(*metamodel, *enumeration)),
        Ty::Class(class) => Ok(Ty::Class(*class)),
        Ty::Coll(kind, item) => Ok(Ty::Coll(*kind, item.again()?)),
    }
}

/// The same type again, if there is one.
pub fn copied(_alloc: Global, of: &Option<Ty>) -> Result<Option<Ty>, ListFault>
    ensures { IfOk result (λ copy. copy ≡ of.now) }
{
    match of {
        None => Ok(None),
        Some(of) => Ok(Some(copy_of(of)?)),
    }
}

/// Whether the two are one type.
pub fn same(one: &Ty, other: &Ty) -> bool
    ensures { result ≡ same_type (ty_view one.now) (ty_view other.now) }
{
    match (one, other) {
        (Ty::Void, Ty::Void) => true,
        (Ty::Boolean, Ty::Boolean) => true,
        (Ty::Integer, Ty::Integer) => true,
        (Ty::Str, Ty::Str) => true,
        (Ty::Enum(metamodel, enumeration), Ty::Enum(other, another)) => {
            metamodel == other && enumeration == another
        }
        (Ty::Class(class), Ty::Class(other)) => class.0 == other.0,
        (Ty::Coll(kind, item), Ty::Coll(other, another)) => {
            same_kind(*kind, *other) && same(item.get(), another.get())
        }
        _ => false,
    }
}
