//! What stands inside phrases, down to those that stand innermost.

ghost use Rattle.qvt_types_walk.specs.Levels.{JudgesBlock, JudgesExpr};

use qvt_base::list_fault::ListFault;
use qvt_tree_types::tree::{Expr, Stmts};
use qvt_types_data::ty::Ty;
use qvt_types_rules::context::Context;
use qvt_types_states::state::TypingState;
use qvt_types_walk_steps::nested::NestedWalk;

/// Functions that judge expressions and blocks, and how many phrases may stand within one another.
#[derive(Drop)]
pub struct Levels<E, B> {
    pub expr_at: E,
    pub block_at: B,
    pub left: u32,
}

impl<
    E: Fn(u32, &Context<'_>, bool, &Expr, &mut TypingState) -> Result<Option<Ty>, ListFault>,
    B: Fn(u32, &Context<'_>, &Stmts, &mut TypingState) -> Result<(), ListFault>,
> NestedWalk for Levels<E, B> {
    ghost ready = { λ l. JudgesExpr l.left (E.pre l.expr_at) (E.post l.expr_at) × JudgesBlock l.left (B.pre l.block_at) (B.post l.block_at) };

    fn expr(
        &self,
        x: &Context<'_>,
        late: bool,
        node: &Expr,
        state: &mut TypingState,
    ) -> Result<Option<Ty>, ListFault> {
        (self.expr_at)(self.left, x, late, node, state)
    }

    fn block(
        &self,
        x: &Context<'_>,
        body: &Stmts,
        state: &mut TypingState,
    ) -> Result<(), ListFault> {
        (self.block_at)(self.left, x, body, state)
    }
}
