//! Expressions.

ghost use Rattle.std.specs.Prelude.{map};
ghost use Rattle.qvt_tree_types.specs.Tree.{IntExpr, StrExpr, BoolExpr, NullExpr, SelfExpr, ResultExpr, PathExpr};
ghost use Rattle.qvt_types_laws.specs.Join.{join_expr};
ghost use Rattle.qvt_types_leaves.specs.Joins.{Joins};
ghost use Rattle.qvt_types_exprs.specs.Made.{held, unboxed, MakesNode, Noted};
ghost use Rattle.qvt_types_nodes.specs.Tree.{TypedCallExpr, TypedCollExpr, TypedIfExpr, TypedObjectExpr, TypedNewExpr, TypedMapExpr, TypedResolveExpr, TypedChainExpr, TypedPrefixExpr, TypedPostExpr};
ghost use Rattle.qvt_types_nodes.specs.View.{typed_expr_view, typed_exprs_of, typed_item_view, typed_items_of, typed_link_view, typed_links_of, typed_step_view, typed_steps_of, typed_map_view, typed_resolve_view, typed_block_view};

use qvt_base::copied::Copied;
use qvt_base::list_fault::ListFault;
use qvt_base::numbers::Place;
use qvt_base::text::Text;
use qvt_tree_types::types::PathTree;
use qvt_tree_types::words::{CollKind, Level};
use qvt_types_leaves::leaves::{in_box, optional_text, out_of_box, path};
use qvt_types_leaves::notes::Notes;
use qvt_types_nodes::tree::{
    TypedExpr, TypedExprList, TypedItemList, TypedLinkList, TypedMapCall, TypedResolveCall,
    TypedSignList, TypedStepList, TypedStmts,
};
use qvt_types_nodes::types::{TypedObjectVar, TypedPathTree};
use std::alloc::Global;

/// An integer, joined with its note.
pub fn integer(
    alloc: Global,
    value: i64,
    place: Place,
    notes: &mut Notes,
) -> Result<Box<TypedExpr>, ListFault>
    ensures { Joins (held typed_expr_view) (join_expr (IntExpr value place) notes.old) result notes.new }
{
    let note = notes.take();
    in_box(alloc, TypedExpr::Int { value, place, note })
}

/// A text, joined with its note.
pub fn text(
    alloc: Global,
    value: &Text,
    place: Place,
    notes: &mut Notes,
) -> Result<Box<TypedExpr>, ListFault>
    ensures { Joins (held typed_expr_view) (join_expr (StrExpr value.now place) notes.old) result notes.new }
{
    let value = value.copy(alloc)?;
    let note = notes.take();
    in_box(alloc, TypedExpr::Str { value, place, note })
}

/// A Boolean, joined with its note.
pub fn boolean(
    alloc: Global,
    value: bool,
    place: Place,
    notes: &mut Notes,
) -> Result<Box<TypedExpr>, ListFault>
    ensures { Joins (held typed_expr_view) (join_expr (BoolExpr value place) notes.old) result notes.new }
{
    let note = notes.take();
    in_box(alloc, TypedExpr::Bool { value, place, note })
}

/// A `null`, joined with its note.
pub fn null(alloc: Global, place: Place, notes: &mut Notes) -> Result<Box<TypedExpr>, ListFault>
    ensures { Joins (held typed_expr_view) (join_expr (NullExpr place) notes.old) result notes.new }
{
    let note = notes.take();
    in_box(alloc, TypedExpr::Null { place, note })
}

/// A `self`, joined with its note.
pub fn self_ref(alloc: Global, place: Place, notes: &mut Notes) -> Result<Box<TypedExpr>, ListFault>
    ensures { Joins (held typed_expr_view) (join_expr (SelfExpr place) notes.old) result notes.new }
{
    let note = notes.take();
    in_box(alloc, TypedExpr::SelfRef { place, note })
}

/// A `result`, joined with its note.
pub fn result_ref(
    alloc: Global,
    place: Place,
    notes: &mut Notes,
) -> Result<Box<TypedExpr>, ListFault>
    ensures { Joins (held typed_expr_view) (join_expr (ResultExpr place) notes.old) result notes.new }
{
    let note = notes.take();
    in_box(alloc, TypedExpr::ResultRef { place, note })
}

/// A path, joined with its note.
pub fn path_expr(
    alloc: Global,
    of: &PathTree,
    notes: &mut Notes,
) -> Result<Box<TypedExpr>, ListFault>
    ensures { Joins (held typed_expr_view) (join_expr (PathExpr of.now) notes.old) result notes.new }
{
    let path = path(alloc, of, notes)?;
    in_box(alloc, TypedExpr::Path(path))
}

/// A call of a name.
pub fn call(
    alloc: Global,
    name: &Text,
    args: TypedExprList,
    place: Place,
    notes: &mut Notes,
) -> Result<Box<TypedExpr>, ListFault>
    ensures { Noted typed_expr_view (TypedCallExpr name.now (typed_exprs_of (map typed_expr_view args)) place) notes.old result notes.new }
{
    let name = name.copy(alloc)?;
    let note = notes.take();
    in_box(
        alloc,
        TypedExpr::Call {
            name,
            args,
            place,
            note,
        },
    )
}

/// A collection of items.
pub fn collection(
    alloc: Global,
    kind: CollKind,
    items: TypedItemList,
    place: Place,
    notes: &mut Notes,
) -> Result<Box<TypedExpr>, ListFault>
    ensures { Noted typed_expr_view (TypedCollExpr kind (typed_items_of (map typed_item_view items)) place) notes.old result notes.new }
{
    let note = notes.take();
    in_box(
        alloc,
        TypedExpr::Coll {
            kind,
            items,
            place,
            note,
        },
    )
}

/// An `if` of its condition and branches.
pub fn conditional(
    alloc: Global,
    condition: Box<TypedExpr>,
    yes: Box<TypedExpr>,
    no: Box<TypedExpr>,
    place: Place,
    notes: &mut Notes,
) -> Result<Box<TypedExpr>, ListFault>
    ensures { Noted typed_expr_view (TypedIfExpr (held typed_expr_view condition) (held typed_expr_view yes) (held typed_expr_view no) place) notes.old result notes.new }
{
    let note = notes.take();
    in_box(
        alloc,
        TypedExpr::If {
            condition,
            yes,
            no,
            place,
            note,
        },
    )
}

/// An object expression.
pub fn object(
    alloc: Global,
    variable: Option<Box<TypedObjectVar>>,
    path: Box<TypedPathTree>,
    extent: &Option<Text>,
    body: TypedStmts,
    place: Place,
    notes: &mut Notes,
) -> Result<Box<TypedExpr>, ListFault>
    ensures { Noted typed_expr_view (TypedObjectExpr (unboxed variable) path.value extent.now (typed_block_view body) place) notes.old result notes.new }
{
    let extent = optional_text(alloc, extent)?;
    let note = notes.take();
    in_box(
        alloc,
        TypedExpr::Object {
            variable: out_of_box(variable),
            path: Box::into_inner(path),
            extent,
            body,
            place,
            note,
        },
    )
}

/// A `new` of a class.
pub fn new_object(
    alloc: Global,
    path: Box<TypedPathTree>,
    extent: &Option<Text>,
    args: TypedExprList,
    place: Place,
    notes: &mut Notes,
) -> Result<Box<TypedExpr>, ListFault>
    ensures { Noted typed_expr_view (TypedNewExpr path.value extent.now (typed_exprs_of (map typed_expr_view args)) place) notes.old result notes.new }
{
    let extent = optional_text(alloc, extent)?;
    let note = notes.take();
    in_box(
        alloc,
        TypedExpr::New {
            path: Box::into_inner(path),
            extent,
            args,
            place,
            note,
        },
    )
}

/// A call of a mapping.
pub fn map_expr(alloc: Global, call: Box<TypedMapCall>) -> Result<Box<TypedExpr>, ListFault>
    ensures { MakesNode typed_expr_view (TypedMapExpr (held typed_map_view call)) result }
{
    in_box(alloc, TypedExpr::Map(Box::into_inner(call)))
}

/// A resolve.
pub fn resolve_expr(alloc: Global, call: Box<TypedResolveCall>) -> Result<Box<TypedExpr>, ListFault>
    ensures { MakesNode typed_expr_view (TypedResolveExpr (held typed_resolve_view call)) result }
{
    in_box(alloc, TypedExpr::Resolve(Box::into_inner(call)))
}

/// Operands with operators between them.
pub fn chain(
    alloc: Global,
    level: Level,
    first: Box<TypedExpr>,
    rest: TypedLinkList,
    place: Place,
    notes: &mut Notes,
) -> Result<Box<TypedExpr>, ListFault>
    ensures { Noted typed_expr_view (TypedChainExpr level (held typed_expr_view first) (typed_links_of (map typed_link_view rest)) place) notes.old result notes.new }
{
    let note = notes.take();
    in_box(
        alloc,
        TypedExpr::Chain {
            level,
            first,
            rest,
            place,
            note,
        },
    )
}

/// An operand with signs before it.
pub fn prefix(
    alloc: Global,
    signs: TypedSignList,
    operand: Box<TypedExpr>,
    place: Place,
    notes: &mut Notes,
) -> Result<Box<TypedExpr>, ListFault>
    ensures { Noted typed_expr_view (TypedPrefixExpr signs (held typed_expr_view operand) place) notes.old result notes.new }
{
    let note = notes.take();
    in_box(
        alloc,
        TypedExpr::Prefix {
            signs,
            operand,
            place,
            note,
        },
    )
}

/// An expression with steps after it.
pub fn post(
    alloc: Global,
    first: Box<TypedExpr>,
    steps: TypedStepList,
    place: Place,
    notes: &mut Notes,
) -> Result<Box<TypedExpr>, ListFault>
    ensures { Noted typed_expr_view (TypedPostExpr (held typed_expr_view first) (typed_steps_of (map typed_step_view steps)) place) notes.old result notes.new }
{
    let note = notes.take();
    in_box(
        alloc,
        TypedExpr::Post {
            first,
            steps,
            place,
            note,
        },
    )
}
