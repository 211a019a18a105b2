//! What stands inside a phrase.

ghost use Rattle.std.specs.Prelude.{map};
ghost use Rattle.qvt_tree_types.specs.View as view;
ghost use Rattle.qvt_types_rules.specs.Seen.{seen};
ghost use Rattle.qvt_types_states.specs.Does.{GivesAndLeaves};
ghost use Rattle.qvt_typing.specs.Phrases as phrase;
ghost use Rattle.qvt_typing.specs.Statements as rule_of;

use qvt_base::list_fault::ListFault;
use qvt_tree_types::tree::{Expr, Stmts};
use qvt_types_data::ty::Ty;
use qvt_types_rules::context::Context;
use qvt_types_states::state::TypingState;

/// The walk over the expressions and blocks that stand inside a phrase, of values that are `ready` for it.
pub trait NestedWalk {
    ghost ready: { Self → Type 0 };

    /// An expression, in which a late resolve may stand where `late` tells it.
    fn expr(
        &self,
        x: &Context<'_>,
        late: bool,
        node: &Expr,
        state: &mut TypingState,
    ) -> Result<Option<Ty>, ListFault>
        requires { ready self.now }
        ensures { GivesAndLeaves (phrase.expr (seen x.now) late (view.expr_view node.now) state.old) result state.new };

    /// A block.
    fn block(&self, x: &Context<'_>, body: &Stmts, state: &mut TypingState) -> Result<(), ListFault>
        requires { ready self.now }
        ensures { GivesAndLeaves (rule_of.block (seen x.now) (phrase.stmts (seen x.now) (view.stmts_of (map view.stmt_view body.now))) state.old) result state.new };
}
