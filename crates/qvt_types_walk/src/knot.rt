//! Phrases, with all that stands inside them.

ghost use Rattle.std.specs.Prelude.{map};
ghost use Rattle.qvt_tree_types.specs.View as view;
ghost use Rattle.qvt_types_rules.specs.Seen.{seen};
ghost use Rattle.qvt_types_states.specs.Does.{GivesAndLeaves};
ghost use Rattle.qvt_typing.specs.Phrases as phrase;
ghost use Rattle.qvt_typing.specs.Statements as rule_of;

use crate::inside::{block_inside, expr_inside};
use crate::levels::Levels;
use qvt_base::list_fault::ListFault;
use qvt_tree_types::tree::{Expr, Stmts};
use qvt_types_data::ty::Ty;
use qvt_types_rules::context::Context;
use qvt_types_states::state::TypingState;

/// How many phrases may stand within one another: ten times as many as in any text, whose brackets are at most 62 deep. Want of
/// memory is told of a phrase that would stand deeper.
pub const LEVELS: u32 = 10_000;

/// An expression, where so many levels are left.
#[cycle(levels)]
pub fn expr_at(
    left: u32,
    x: &Context<'_>,
    late: bool,
    node: &Expr,
    state: &mut TypingState,
) -> Result<Option<Ty>, ListFault>
    ensures { GivesAndLeaves (phrase.expr (seen x.now) late (view.expr_view node.now) state.old) result state.new }
{
    let Some(less) = left.checked_sub(1) else {
        return Err(ListFault::NoMemory);
    };
    let inside = Levels {
        expr_at,
        block_at,
        left: less,
    };
    expr_inside(x, inside, late, node, state)
}

/// A block, where so many levels are left.
#[cycle(levels)]
pub fn block_at(
    left: u32,
    x: &Context<'_>,
    body: &Stmts,
    state: &mut TypingState,
) -> Result<(), ListFault>
    ensures { GivesAndLeaves (rule_of.block (seen x.now) (phrase.stmts (seen x.now) (view.stmts_of (map view.stmt_view body.now))) state.old) result state.new }
{
    let Some(less) = left.checked_sub(1) else {
        return Err(ListFault::NoMemory);
    };
    let inside = Levels {
        expr_at,
        block_at,
        left: less,
    };
    block_inside(x, inside, body.as_slice(), state)
}
