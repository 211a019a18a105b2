//! Statements.

ghost use Rattle.std.specs.Prelude.{◌≡◌, ◌++◌, map, OnOk};
ghost use Rattle.qvt_types_nodes.specs.View as view;
ghost use Rattle.qvt_meaning.specs.Numbered as numbered;
ghost use Rattle.qvt_program_exprs.specs.Listing.{listing};

use crate::expressions::{boxed, expr, optional};
use crate::listed::{FilterName, ListedExprList};
use qvt_base::list_fault::ListFault;
use qvt_types_nodes::tree::{TypedArm, TypedStmt, TypedTarget};

#[cycle(listing)]
#[tactic(auto, unfolding(qvt_meaning::specs::Numbered::in_target))]
pub fn target<'a>(node: &'a TypedTarget, all: &mut ListedExprList<'a>) -> Result<(), ListFault>
    ensures { OnOk result (listing all.new ≡ listing all.old ++ numbered.in_target (view.typed_target_view node.now)) }
{
    match node {
        TypedTarget::Bare { .. } => Ok(()),
        TypedTarget::ResultVar { .. } => Ok(()),
        TypedTarget::Member { object, .. } => expr(FilterName::NoFilter, object, all),
    }
}

#[cycle(listing)]
#[tactic(auto, unfolding(qvt_meaning::specs::Numbered::in_stmt, qvt_meaning::specs::Numbered::in_else))]
pub fn stmt<'a>(node: &'a TypedStmt, all: &mut ListedExprList<'a>) -> Result<(), ListFault>
    ensures { OnOk result (listing all.new ≡ listing all.old ++ numbered.in_stmt (view.typed_stmt_view node.now)) }
{
    match node {
        TypedStmt::Var { value, .. } => optional(value, all),
        TypedStmt::Assign {
            target: aim,
            value,
            ..
        } => {
            target(aim, all)?;
            expr(FilterName::NoFilter, value, all)
        }
        TypedStmt::Return { value, .. } => optional(value, all),
        TypedStmt::Value { value, .. } => expr(FilterName::NoFilter, value, all),
        TypedStmt::If {
            condition,
            body,
            arms,
            otherwise,
            ..
        } => {
            expr(FilterName::NoFilter, condition, all)?;
            stmts(body.as_slice(), all)?;
            all_arms(arms.as_slice(), all)?;
            match otherwise {
                None => Ok(()),
                Some(other) => stmts(other.as_slice(), all),
            }
        }
        TypedStmt::While {
            condition,
            body,
            ..
        } => {
            expr(FilterName::NoFilter, condition, all)?;
            stmts(body.as_slice(), all)
        }
        TypedStmt::ForEach {
            source,
            condition,
            body,
            ..
        } => {
            expr(FilterName::NoFilter, source, all)?;
            boxed(condition, all)?;
            stmts(body.as_slice(), all)
        }
    }
}

#[cycle(listing)]
#[tactic(auto, unfolding(qvt_meaning::specs::Numbered::in_stmts))]
pub fn stmts<'a>(nodes: &'a [TypedStmt], all: &mut ListedExprList<'a>) -> Result<(), ListFault>
    ensures { OnOk result (listing all.new ≡ listing all.old ++ numbered.in_stmts (view.typed_block_view nodes.now)) }
{
    for node in nodes {
        stmt(node, all)?;
    }
    Ok(())
}

#[cycle(listing)]
#[tactic(auto, unfolding(qvt_meaning::specs::Numbered::in_arm))]
pub fn arm<'a>(node: &'a TypedArm, all: &mut ListedExprList<'a>) -> Result<(), ListFault>
    ensures { OnOk result (listing all.new ≡ listing all.old ++ numbered.in_arm (view.typed_arm_view node.now)) }
{
    expr(FilterName::NoFilter, &node.condition, all)?;
    stmts(node.body.as_slice(), all)
}

#[cycle(listing)]
#[tactic(auto, unfolding(qvt_meaning::specs::Numbered::in_arms))]
pub fn all_arms<'a>(nodes: &'a [TypedArm], all: &mut ListedExprList<'a>) -> Result<(), ListFault>
    ensures { OnOk result (listing all.new ≡ listing all.old ++ numbered.in_arms (view.typed_arms_of (map view.typed_arm_view nodes.now))) }
{
    for node in nodes {
        arm(node, all)?;
    }
    Ok(())
}
