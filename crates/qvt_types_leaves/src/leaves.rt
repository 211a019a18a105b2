//! Paths, types and signs.

ghost use Rattle.std.specs.Prelude.{◌≡◌, IfOk, option_map};
ghost use Rattle.qvt_tree_types.specs.View.{type_view, optional_type};
ghost use Rattle.qvt_types_laws.specs.Join.{join_path, join_optional_path, join_sign, join_signs, join_variable, join_type, join_optional_type};
ghost use Rattle.qvt_types_laws.specs.JoinModule.{join_all};
ghost use Rattle.qvt_types_nodes.specs.View.{typed_type_view, typed_optional_type};
ghost use Rattle.qvt_types_leaves.specs.Joins.{Joins, JoinsAsIs};

use crate::notes::Notes;
use qvt_base::copied::Copied;
use qvt_base::list_fault::ListFault;
use qvt_base::seq::Seq;
use qvt_base::text::Text;
use qvt_tree_types::types::{ObjectVar, PathTree, TypeTree};
use qvt_tree_types::words::Sign;
use qvt_types_nodes::tree::TypedSignList;
use qvt_types_nodes::types::{
    TypedObjectVar, TypedPathList, TypedPathTree, TypedSign, TypedTypeTree,
};
use std::alloc::Global;

/// A box of the value. Where it is held over further calls, a part costs less in one.
pub fn in_box<T: Drop>(alloc: Global, value: T) -> Result<Box<T>, ListFault>
    ensures { IfOk result (λ b. b.value ≡ value) }
{
    match Box::new(alloc, value) {
        Ok(inner) => Ok(inner),
        Err(_) => Err(ListFault::NoMemory),
    }
}

/// The same of a part that may be left out.
pub fn optional_in_box<T: Drop>(
    alloc: Global,
    value: Option<T>,
) -> Result<Option<Box<T>>, ListFault>
    ensures { IfOk result (λ part. option_map (λ b. b.value) part ≡ value) }
{
    match value {
        None => Ok(None),
        Some(value) => Ok(Some(in_box(alloc, value)?)),
    }
}

/// What the box holds, where there is one.
pub fn out_of_box<T: Drop>(part: Option<Box<T>>) -> Option<T>
    ensures { result ≡ option_map (λ b. b.value) part }
{
    match part {
        None => None,
        Some(value) => Some(Box::into_inner(value)),
    }
}

pub fn optional_text(alloc: Global, text: &Option<Text>) -> Result<Option<Text>, ListFault>
    ensures { IfOk result (λ copy. copy ≡ text.now) }
{
    match text {
        None => Ok(None),
        Some(text) => Ok(Some(text.copy(alloc)?)),
    }
}

pub fn path(alloc: Global, path: &PathTree, notes: &mut Notes) -> Result<TypedPathTree, ListFault>
    ensures { JoinsAsIs (join_path path.now notes.old) result notes.new }
{
    let names = path.names.copy(alloc)?;
    let note = notes.take();
    Ok(TypedPathTree {
        names,
        place: path.place,
        note,
    })
}

pub fn optional_path(
    alloc: Global,
    of: &Option<PathTree>,
    notes: &mut Notes,
) -> Result<Option<TypedPathTree>, ListFault>
    ensures { JoinsAsIs (join_optional_path of.now notes.old) result notes.new }
{
    match of {
        None => Ok(None),
        Some(of) => Ok(Some(path(alloc, of, notes)?)),
    }
}

pub fn paths(alloc: Global, of: &[PathTree], notes: &mut Notes) -> Result<TypedPathList, ListFault>
    ensures { JoinsAsIs (join_all join_path of.now notes.old) result notes.new }
{
    let mut done = Seq::with_room(alloc, of.len())?;
    for each in of {
        done.push(path(alloc, each, notes)?)?;
    }
    Ok(done)
}

pub fn sign(sign: Sign, notes: &mut Notes) -> TypedSign
    ensures { join_sign sign notes.old ≡ (result, notes.new) }
{
    TypedSign {
        op: sign.op,
        place: sign.place,
        note: notes.take(),
    }
}

pub fn signs(alloc: Global, of: &[Sign], notes: &mut Notes) -> Result<TypedSignList, ListFault>
    ensures { JoinsAsIs (join_signs of.now notes.old) result notes.new }
{
    let mut done = Seq::with_room(alloc, of.len())?;
    for each in of {
        done.push(sign(*each, notes))?;
    }
    Ok(done)
}

pub fn variable(
    alloc: Global,
    of: &Option<ObjectVar>,
    notes: &mut Notes,
) -> Result<Option<TypedObjectVar>, ListFault>
    ensures { JoinsAsIs (join_variable of.now notes.old) result notes.new }
{
    match of {
        None => Ok(None),
        Some(ObjectVar::Named { name, place }) => {
            let name = name.copy(alloc)?;
            let note = notes.take();
            Ok(Some(TypedObjectVar::Named {
                name,
                place: *place,
                note,
            }))
        }
        Some(ObjectVar::ResultVar { place }) => {
            let note = notes.take();
            Ok(Some(TypedObjectVar::ResultVar {
                place: *place,
                note,
            }))
        }
    }
}

#[cycle(types)]
pub fn type_tree(
    alloc: Global,
    of: &TypeTree,
    notes: &mut Notes,
) -> Result<TypedTypeTree, ListFault>
    ensures { Joins typed_type_view (join_type (type_view of.now) notes.old) result notes.new }
{
    match of {
        TypeTree::Path(of) => Ok(TypedTypeTree::Path(path(alloc, of, notes)?)),
        TypeTree::Coll { kind, item, place } => {
            let item = boxed_type(alloc, item, notes)?;
            let note = notes.take();
            Ok(TypedTypeTree::Coll {
                kind: *kind,
                item,
                place: *place,
                note,
            })
        }
    }
}

#[cycle(types)]
pub fn boxed_type(
    alloc: Global,
    of: &TypeTree,
    notes: &mut Notes,
) -> Result<Box<TypedTypeTree>, ListFault>
    ensures { Joins (λ b. typed_type_view b.value) (join_type (type_view of.now) notes.old) result notes.new }
{
    let of = type_tree(alloc, of, notes)?;
    in_box(alloc, of)
}

pub fn optional_type(
    alloc: Global,
    of: &Option<TypeTree>,
    notes: &mut Notes,
) -> Result<Option<TypedTypeTree>, ListFault>
    ensures { Joins typed_optional_type (join_optional_type (optional_type of.now) notes.old) result notes.new }
{
    match of {
        None => Ok(None),
        Some(of) => Ok(Some(type_tree(alloc, of, notes)?)),
    }
}
