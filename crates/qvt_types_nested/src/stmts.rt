//! Statements.

ghost use Rattle.std.specs.Option.{option_map};
ghost use Rattle.std.specs.Prelude.{map};
ghost use Rattle.qvt_tree_types.specs.Tree.{VarStmt};
ghost use Rattle.qvt_tree_types.specs.View.{expr_view, stmt_view, target_view, arm_view, arms_of, optional_type, optional_expr, block_view};
ghost use Rattle.qvt_types_laws.specs.Join.{join_stmt, join_stmts, join_target, join_arm, join_arms, join_optional_expr};
ghost use Rattle.qvt_types_leaves.specs.Joins.{Joins};
ghost use Rattle.qvt_types_exprs.specs.Made.{held, unboxed};
ghost use Rattle.qvt_types_nodes.specs.View.{typed_expr_view, typed_stmt_view, typed_target_view, typed_arm_view, typed_arms_of, typed_optional_expr, typed_block_view};

use crate::exprs::expr;
use qvt_base::list_fault::ListFault;
use qvt_base::numbers::Place;
use qvt_base::seq::Seq;
use qvt_base::text::Text;
use qvt_tree_types::tree::{Arm, Expr, Stmt, Target};
use qvt_tree_types::types::TypeTree;
use qvt_types_exprs::boxes::{optional_type, push};
use qvt_types_leaves::notes::Notes;
use qvt_types_nodes::tree::{
    TypedArm, TypedArmList, TypedExpr, TypedStmt, TypedStmts, TypedTarget,
};
use qvt_types_stmts::stmts as made;
use std::alloc::Global;

#[cycle(join)]
pub fn stmts(alloc: Global, of: &[Stmt], notes: &mut Notes) -> Result<TypedStmts, ListFault>
    ensures { Joins typed_block_view (join_stmts (block_view of.now) notes.old) result notes.new }
{
    let mut done = Seq::with_room(alloc, of.len())?;
    for each in of {
        let next = stmt(alloc, each, notes)?;
        push(&mut done, next)?;
    }
    Ok(done)
}

#[cycle(join)]
pub fn optional_expr(
    alloc: Global,
    of: &Option<Expr>,
    notes: &mut Notes,
) -> Result<Option<Box<TypedExpr>>, ListFault>
    ensures { Joins (λ o. typed_optional_expr (option_map typed_expr_view (unboxed o))) (join_optional_expr (optional_expr (option_map expr_view of.now)) notes.old) result notes.new }
{
    match of {
        None => Ok(None),
        Some(of) => Ok(Some(expr(alloc, of, notes)?)),
    }
}

#[cycle(join)]
pub fn stmt(alloc: Global, of: &Stmt, notes: &mut Notes) -> Result<Box<TypedStmt>, ListFault>
    ensures { Joins (held typed_stmt_view) (join_stmt (stmt_view of.now) notes.old) result notes.new }
{
    match of {
        Stmt::Var {
            name,
            kind,
            value,
            place,
        } => variable(alloc, value, name, kind, *place, notes),
        Stmt::Assign {
            target: to,
            adds,
            value,
            place,
        } => {
            let target = target(alloc, to, notes)?;
            let value = expr(alloc, value, notes)?;
            made::assignment(alloc, target, *adds, value, *place, notes)
        }
        Stmt::Return { value, place } => {
            let value = optional_expr(alloc, value, notes)?;
            made::returned(alloc, value, *place, notes)
        }
        Stmt::Value { value, place } => {
            let value = expr(alloc, value, notes)?;
            made::evaluated(alloc, value, *place, notes)
        }
        Stmt::If {
            condition,
            body,
            arms,
            otherwise,
            place,
        } => {
            let condition = expr(alloc, condition, notes)?;
            let body = stmts(alloc, body.as_slice(), notes)?;
            let arms = all_arms(alloc, arms.as_slice(), notes)?;
            match otherwise {
                None => made::choice(alloc, condition, body, arms, None, *place, notes),
                Some(last) => {
                    let last = stmts(alloc, last.as_slice(), notes)?;
                    made::choice(alloc, condition, body, arms, Some(last), *place, notes)
                }
            }
        }
        Stmt::While {
            condition,
            body,
            place,
        } => {
            let condition = expr(alloc, condition, notes)?;
            let body = stmts(alloc, body.as_slice(), notes)?;
            made::repetition(alloc, condition, body, *place, notes)
        }
        Stmt::ForEach {
            source,
            name,
            kind,
            condition,
            body,
            place,
        } => {
            let source = expr(alloc, source, notes)?;
            let kind = optional_type(alloc, kind, notes)?;
            let condition = optional_expr(alloc, condition, notes)?;
            let body = stmts(alloc, body.as_slice(), notes)?;
            made::for_each(alloc, source, name, kind, condition, body, *place, notes)
        }
    }
}

#[cycle(join)]
pub fn variable(
    alloc: Global,
    value: &Option<Expr>,
    name: &Text,
    kind: &Option<TypeTree>,
    place: Place,
    notes: &mut Notes,
) -> Result<Box<TypedStmt>, ListFault>
    ensures { Joins (held typed_stmt_view) (join_stmt (VarStmt name.now (optional_type kind.now) (optional_expr (option_map expr_view value.now)) place) notes.old) result notes.new }
{
    let kind = optional_type(alloc, kind, notes)?;
    let value = optional_expr(alloc, value, notes)?;
    made::variable(alloc, name, kind, value, place, notes)
}

#[cycle(join)]
pub fn target(alloc: Global, of: &Target, notes: &mut Notes) -> Result<Box<TypedTarget>, ListFault>
    ensures { Joins (held typed_target_view) (join_target (target_view of.now) notes.old) result notes.new }
{
    match of {
        Target::Bare { name, place } => made::bare_target(alloc, name, *place, notes),
        Target::ResultVar { place } => made::result_target(alloc, *place, notes),
        Target::Member {
            object,
            name,
            place,
        } => {
            let object = expr(alloc, object, notes)?;
            made::member_target(alloc, object, name, *place, notes)
        }
    }
}

#[cycle(join)]
pub fn arm(alloc: Global, of: &Arm, notes: &mut Notes) -> Result<Box<TypedArm>, ListFault>
    ensures { Joins (held typed_arm_view) (join_arm (arm_view of.now) notes.old) result notes.new }
{
    let condition = expr(alloc, &of.condition, notes)?;
    let body = stmts(alloc, of.body.as_slice(), notes)?;
    made::arm(alloc, condition, body)
}

#[cycle(join)]
pub fn all_arms(alloc: Global, of: &[Arm], notes: &mut Notes) -> Result<TypedArmList, ListFault>
    ensures { Joins (λ xs. typed_arms_of (map typed_arm_view xs)) (join_arms (arms_of (map arm_view of.now)) notes.old) result notes.new }
{
    let mut done = Seq::with_room(alloc, of.len())?;
    for each in of {
        let next = arm(alloc, each, notes)?;
        push(&mut done, next)?;
    }
    Ok(done)
}
