//! Statements.

ghost use Rattle.std.specs.Prelude.{map};
ghost use Rattle.std.specs.Option.{option_map};
ghost use Rattle.qvt_tree_types.specs.Tree.{BareTarget, ResultTarget};
ghost use Rattle.qvt_types_laws.specs.Join.{join_target};
ghost use Rattle.qvt_types_leaves.specs.Joins.{Joins};
ghost use Rattle.qvt_types_exprs.specs.Made.{held, unboxed, MakesNode, Noted};
ghost use Rattle.qvt_types_nodes.specs.Tree.{TypedMemberTarget, TypedVarStmt, TypedAssignStmt, TypedReturnStmt, TypedValueStmt, TypedIfStmt, TypedWhileStmt, TypedForEachStmt, TypedArmOf};
ghost use Rattle.qvt_types_nodes.specs.View.{typed_optional_type, typed_expr_view, typed_stmt_view, typed_target_view, typed_arm_view, typed_arms_of, typed_optional_expr, typed_optional_else, typed_block_view};

use qvt_base::copied::Copied;
use qvt_base::list_fault::ListFault;
use qvt_base::numbers::Place;
use qvt_base::text::Text;
use qvt_types_leaves::leaves::{in_box, out_of_box};
use qvt_types_leaves::notes::Notes;
use qvt_types_nodes::tree::{
    TypedArm, TypedArmList, TypedExpr, TypedStmt, TypedStmts, TypedTarget,
};
use qvt_types_nodes::types::TypedTypeTree;
use std::alloc::Global;

/// The name that an assignment writes, joined with its note.
pub fn bare_target(
    alloc: Global,
    name: &Text,
    place: Place,
    notes: &mut Notes,
) -> Result<Box<TypedTarget>, ListFault>
    ensures { Joins (held typed_target_view) (join_target (BareTarget name.now place) notes.old) result notes.new }
{
    let name = name.copy(alloc)?;
    let note = notes.take();
    in_box(alloc, TypedTarget::Bare { name, place, note })
}

/// The `result` that an assignment writes, joined with its note.
pub fn result_target(
    alloc: Global,
    place: Place,
    notes: &mut Notes,
) -> Result<Box<TypedTarget>, ListFault>
    ensures { Joins (held typed_target_view) (join_target (ResultTarget place) notes.old) result notes.new }
{
    let note = notes.take();
    in_box(alloc, TypedTarget::ResultVar { place, note })
}

/// The property of an object that an assignment writes.
pub fn member_target(
    alloc: Global,
    object: Box<TypedExpr>,
    name: &Text,
    place: Place,
    notes: &mut Notes,
) -> Result<Box<TypedTarget>, ListFault>
    ensures { Noted typed_target_view (TypedMemberTarget (held typed_expr_view object) name.now place) notes.old result notes.new }
{
    let name = name.copy(alloc)?;
    let note = notes.take();
    in_box(
        alloc,
        TypedTarget::Member {
            object: Box::into_inner(object),
            name,
            place,
            note,
        },
    )
}

/// A declaration of a variable.
pub fn variable(
    alloc: Global,
    name: &Text,
    kind: Option<Box<TypedTypeTree>>,
    value: Option<Box<TypedExpr>>,
    place: Place,
    notes: &mut Notes,
) -> Result<Box<TypedStmt>, ListFault>
    ensures { Noted typed_stmt_view (TypedVarStmt name.now (typed_optional_type (unboxed kind)) (typed_optional_expr (option_map typed_expr_view (unboxed value))) place) notes.old result notes.new }
{
    let name = name.copy(alloc)?;
    let note = notes.take();
    in_box(
        alloc,
        TypedStmt::Var {
            name,
            kind: out_of_box(kind),
            value: out_of_box(value),
            place,
            note,
        },
    )
}

/// An assignment, or a `+=`.
pub fn assignment(
    alloc: Global,
    target: Box<TypedTarget>,
    adds: bool,
    value: Box<TypedExpr>,
    place: Place,
    notes: &mut Notes,
) -> Result<Box<TypedStmt>, ListFault>
    ensures { Noted typed_stmt_view (TypedAssignStmt (held typed_target_view target) adds (held typed_expr_view value) place) notes.old result notes.new }
{
    let note = notes.take();
    in_box(
        alloc,
        TypedStmt::Assign {
            target,
            adds,
            value: Box::into_inner(value),
            place,
            note,
        },
    )
}

/// A `return`.
pub fn returned(
    alloc: Global,
    value: Option<Box<TypedExpr>>,
    place: Place,
    notes: &mut Notes,
) -> Result<Box<TypedStmt>, ListFault>
    ensures { Noted typed_stmt_view (TypedReturnStmt (typed_optional_expr (option_map typed_expr_view (unboxed value))) place) notes.old result notes.new }
{
    let note = notes.take();
    in_box(
        alloc,
        TypedStmt::Return {
            value: out_of_box(value),
            place,
            note,
        },
    )
}

/// An expression that stands as a statement.
pub fn evaluated(
    alloc: Global,
    value: Box<TypedExpr>,
    place: Place,
    notes: &mut Notes,
) -> Result<Box<TypedStmt>, ListFault>
    ensures { Noted typed_stmt_view (TypedValueStmt (held typed_expr_view value) place) notes.old result notes.new }
{
    let note = notes.take();
    in_box(
        alloc,
        TypedStmt::Value {
            value: Box::into_inner(value),
            place,
            note,
        },
    )
}

/// An `elif`.
pub fn arm(
    alloc: Global,
    condition: Box<TypedExpr>,
    body: TypedStmts,
) -> Result<Box<TypedArm>, ListFault>
    ensures { MakesNode typed_arm_view (TypedArmOf (held typed_expr_view condition) (typed_block_view body)) result }
{
    in_box(
        alloc,
        TypedArm {
            condition: Box::into_inner(condition),
            body,
        },
    )
}

/// An `if`, with its `elif`s and its `else`.
pub fn choice(
    alloc: Global,
    condition: Box<TypedExpr>,
    body: TypedStmts,
    arms: TypedArmList,
    otherwise: Option<TypedStmts>,
    place: Place,
    notes: &mut Notes,
) -> Result<Box<TypedStmt>, ListFault>
    ensures { Noted typed_stmt_view (TypedIfStmt (held typed_expr_view condition) (typed_block_view body) (typed_arms_of (map typed_arm_view arms)) (typed_optional_else (option_map (map typed_stmt_view) otherwise)) place) notes.old result notes.new }
{
    let note = notes.take();
    in_box(
        alloc,
        TypedStmt::If {
            condition: Box::into_inner(condition),
            body,
            arms,
            otherwise,
            place,
            note,
        },
    )
}

/// A `while`.
pub fn repetition(
    alloc: Global,
    condition: Box<TypedExpr>,
    body: TypedStmts,
    place: Place,
    notes: &mut Notes,
) -> Result<Box<TypedStmt>, ListFault>
    ensures { Noted typed_stmt_view (TypedWhileStmt (held typed_expr_view condition) (typed_block_view body) place) notes.old result notes.new }
{
    let note = notes.take();
    in_box(
        alloc,
        TypedStmt::While {
            condition: Box::into_inner(condition),
            body,
            place,
            note,
        },
    )
}

/// A `forEach`.
pub fn for_each(
    alloc: Global,
    source: Box<TypedExpr>,
    name: &Text,
    kind: Option<Box<TypedTypeTree>>,
    condition: Option<Box<TypedExpr>>,
    body: TypedStmts,
    place: Place,
    notes: &mut Notes,
) -> Result<Box<TypedStmt>, ListFault>
    ensures { Noted typed_stmt_view (TypedForEachStmt (held typed_expr_view source) name.now (typed_optional_type (unboxed kind)) (typed_optional_expr (option_map typed_expr_view (unboxed condition))) (typed_block_view body) place) notes.old result notes.new }
{
    let name = name.copy(alloc)?;
    let note = notes.take();
    in_box(
        alloc,
        TypedStmt::ForEach {
            source: Box::into_inner(source),
            name,
            kind: out_of_box(kind),
            condition,
            body,
            place,
            note,
        },
    )
}
