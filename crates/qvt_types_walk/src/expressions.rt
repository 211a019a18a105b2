//! Expressions.

ghost use Rattle.qvt_tree_types.specs.View as view;
ghost use Rattle.qvt_types_rules.specs.Seen.{seen};
ghost use Rattle.qvt_types_states.specs.Does.{GivesAndLeaves};
ghost use Rattle.qvt_typing.specs.Phrases as phrase;

use crate::knot::{LEVELS, expr_at};
use qvt_base::list_fault::ListFault;
use qvt_tree_types::tree::Expr;
use qvt_types_data::ty::Ty;
use qvt_types_rules::context::Context;
use qvt_types_states::state::TypingState;

/// An expression, in which a late resolve may stand where `late` tells it.
pub fn expr(
    x: &Context<'_>,
    late: bool,
    node: &Expr,
    state: &mut TypingState,
) -> Result<Option<Ty>, ListFault>
    ensures { GivesAndLeaves (phrase.expr (seen x.now) late (view.expr_view node.now) state.old) result state.new }
{
    expr_at(LEVELS, x, late, node, state)
}
