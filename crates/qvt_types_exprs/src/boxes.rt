//! Parts without expressions in boxes, and lists of what is held in boxes.

ghost use Rattle.std.specs.Prelude.{◌≡◌, [], ◌∷◌, ◌++◌, OnOk, OnErr};
ghost use Rattle.qvt_tree_types.specs.View.{optional_type};
ghost use Rattle.qvt_types_laws.specs.Join.{join_path, join_optional_path, join_variable, join_optional_type};
ghost use Rattle.qvt_types_leaves.specs.Joins.{Joins};
ghost use Rattle.qvt_types_exprs.specs.Made.{unboxed};
ghost use Rattle.qvt_types_nodes.specs.View.{typed_optional_type};

use qvt_base::list_fault::ListFault;
use qvt_base::seq::Seq;
use qvt_tree_types::types::{ObjectVar, PathTree, TypeTree};
use qvt_types_leaves::leaves;
use qvt_types_leaves::leaves::{in_box, optional_in_box};
use qvt_types_leaves::notes::Notes;
use qvt_types_nodes::types::{TypedObjectVar, TypedPathTree, TypedTypeTree};
use std::alloc::Global;

/// Puts what the box holds last. A refused call changes nothing.
pub fn push<T: Drop>(list: &mut Seq<T>, item: Box<T>) -> Result<(), ListFault>
    ensures ok { OnOk result (list.new ≡ list.old ++ item.value ∷ []) }
    ensures err { OnErr result (list.new ≡ list.old) }
{
    list.push(Box::into_inner(item))
}

pub fn path(
    alloc: Global,
    of: &PathTree,
    notes: &mut Notes,
) -> Result<Box<TypedPathTree>, ListFault>
    ensures { Joins (λ b. b.value) (join_path of.now notes.old) result notes.new }
{
    let path = leaves::path(alloc, of, notes)?;
    in_box(alloc, path)
}

pub fn optional_path(
    alloc: Global,
    of: &Option<PathTree>,
    notes: &mut Notes,
) -> Result<Option<Box<TypedPathTree>>, ListFault>
    ensures { Joins unboxed (join_optional_path of.now notes.old) result notes.new }
{
    let path = leaves::optional_path(alloc, of, notes)?;
    optional_in_box(alloc, path)
}

pub fn variable(
    alloc: Global,
    of: &Option<ObjectVar>,
    notes: &mut Notes,
) -> Result<Option<Box<TypedObjectVar>>, ListFault>
    ensures { Joins unboxed (join_variable of.now notes.old) result notes.new }
{
    let variable = leaves::variable(alloc, of, notes)?;
    optional_in_box(alloc, variable)
}

pub fn optional_type(
    alloc: Global,
    of: &Option<TypeTree>,
    notes: &mut Notes,
) -> Result<Option<Box<TypedTypeTree>>, ListFault>
    ensures { Joins (λ o. typed_optional_type (unboxed o)) (join_optional_type (optional_type of.now) notes.old) result notes.new }
{
    let kind = leaves::optional_type(alloc, of, notes)?;
    optional_in_box(alloc, kind)
}
