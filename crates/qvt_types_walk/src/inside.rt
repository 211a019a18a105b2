//! Phrases, over values that are ready for what stands inside them.

ghost use Rattle.std.specs.Prelude.{map};
ghost use Rattle.qvt_tree_types.specs.View as view;
ghost use Rattle.qvt_types_rules.specs.Seen.{seen};
ghost use Rattle.qvt_types_states.specs.Does.{GivesAndLeaves};
ghost use Rattle.qvt_typing.specs.Phrases as phrase;
ghost use Rattle.qvt_typing.specs.Statements as rule_of;

use crate::blocks::{in_order, in_scope};
use qvt_base::list_fault::ListFault;
use qvt_tree_types::tree::{Expr, Stmt};
use qvt_types_data::ty::Ty;
use qvt_types_rules::context::Context;
use qvt_types_states::state::TypingState;
use qvt_types_walk_exprs::exprs::expression;
use qvt_types_walk_steps::nested::NestedWalk;

pub fn expr_inside<C: NestedWalk + Drop>(
    x: &Context<'_>,
    inside: C,
    late: bool,
    node: &Expr,
    state: &mut TypingState,
) -> Result<Option<Ty>, ListFault>
    requires { C.ready inside }
    ensures { GivesAndLeaves (phrase.expr (seen x.now) late (view.expr_view node.now) state.old) result state.new }
{
    expression(x, &inside, late, node, state)
}

pub fn block_inside<C: NestedWalk + Drop>(
    x: &Context<'_>,
    inside: C,
    body: &[Stmt],
    state: &mut TypingState,
) -> Result<(), ListFault>
    requires { C.ready inside }
    ensures { GivesAndLeaves (rule_of.block (seen x.now) (phrase.stmts (seen x.now) (view.stmts_of (map view.stmt_view body.now))) state.old) result state.new }
{
    in_scope(x, &inside, body, state)
}

pub fn stmts_inside<C: NestedWalk + Drop>(
    x: &Context<'_>,
    inside: C,
    body: &[Stmt],
    state: &mut TypingState,
) -> Result<(), ListFault>
    requires { C.ready inside }
    ensures { GivesAndLeaves (rule_of.each (phrase.stmts (seen x.now) (view.stmts_of (map view.stmt_view body.now))) state.old) result state.new }
{
    in_order(x, &inside, body, state)
}
