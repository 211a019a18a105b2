//! Statements.

ghost use Rattle.std.specs.Prelude.{map};
ghost use Rattle.qvt_tree_types.specs.View as view;
ghost use Rattle.qvt_types_rules.specs.Seen.{seen};
ghost use Rattle.qvt_types_states.specs.Does.{GivesAndLeaves};
ghost use Rattle.qvt_typing.specs.Phrases as phrase;
ghost use Rattle.qvt_typing.specs.Statements as rule_of;

use crate::inside::{block_inside, stmts_inside};
use crate::knot::{LEVELS, block_at, expr_at};
use crate::levels::Levels;
use qvt_base::list_fault::ListFault;
use qvt_tree_types::tree::Stmt;
use qvt_types_rules::context::Context;
use qvt_types_states::state::TypingState;

/// A block, whose variables are in scope up to its end.
pub fn block(x: &Context<'_>, body: &[Stmt], state: &mut TypingState) -> Result<(), ListFault>
    ensures { GivesAndLeaves (rule_of.block (seen x.now) (phrase.stmts (seen x.now) (view.stmts_of (map view.stmt_view body.now))) state.old) result state.new }
{
    let inside = Levels {
        expr_at,
        block_at,
        left: LEVELS,
    };
    block_inside(x, inside, body, state)
}

/// Statements in their order.
pub fn stmts(x: &Context<'_>, body: &[Stmt], state: &mut TypingState) -> Result<(), ListFault>
    ensures { GivesAndLeaves (rule_of.each (phrase.stmts (seen x.now) (view.stmts_of (map view.stmt_view body.now))) state.old) result state.new }
{
    let inside = Levels {
        expr_at,
        block_at,
        left: LEVELS,
    };
    stmts_inside(x, inside, body, state)
}
