//! Operands with operators between them, or signs before them.

ghost use Rattle.std.specs.Prelude.{map, false};
ghost use Rattle.qvt_tree_types.specs.View as view;
ghost use Rattle.qvt_types_rules.specs.Seen.{seen};
ghost use Rattle.qvt_types_states.specs.Does.{GivesAndLeaves};
ghost use Rattle.qvt_typing.specs.Phrases as phrase;
ghost use Rattle.qvt_typing.specs.Rules as rule;

use qvt_base::list_fault::ListFault;
use qvt_tree_types::tree::{Expr, Link};
use qvt_tree_types::words::Sign;
use qvt_types_data::ty::Ty;
use qvt_types_rules::context::Context;
use qvt_types_rules::parts::{sign_notes, signed};
use qvt_types_rules::settling::{settled_bare, stands_as};
use qvt_types_states::state::TypingState;
use qvt_types_states::steps::fresh;
use qvt_types_walk_steps::nested::NestedWalk;
use qvt_types_words::rulings::operator;

/// An operator and what stands after it.
#[tactic(auto, unfolding(qvt_typing::specs::Phrases::linked, qvt_typing::specs::Rules::link))]
fn link<C: NestedWalk>(
    x: &Context<'_>,
    inside: &C,
    link: &Link,
    before: &Option<Ty>,
    state: &mut TypingState,
) -> Result<Option<Ty>, ListFault>
    requires { C.ready inside.now }
    ensures { GivesAndLeaves (phrase.linked (seen x.now) (view.link_view link.now) before.now state.old) result state.new }
{
    let operand = inside.expr(x, false, &link.operand, state)?;
    let ruling = operator(x.alloc, x.heads.units.metas(), link.op, before, &operand)?;
    settled_bare(ruling, link.place, state)
}

#[tactic(auto, unfolding(qvt_typing::specs::Phrases::links))]
fn links<C: NestedWalk>(
    x: &Context<'_>,
    inside: &C,
    first: Option<Ty>,
    rest: &[Link],
    state: &mut TypingState,
) -> Result<Option<Ty>, ListFault>
    requires { C.ready inside.now }
    ensures { GivesAndLeaves (rule.beside first (phrase.links (seen x.now) (view.links_of (map view.link_view rest.now))) state.old) result state.new }
{
    let mut ty = first;
    for next in rest {
        ty = link(x, inside, next, &ty, state)?;
    }
    Ok(ty)
}

#[tactic(auto, unfolding(qvt_typing::specs::Rules::chain))]
pub fn chain<C: NestedWalk>(
    x: &Context<'_>,
    inside: &C,
    first: &Expr,
    rest: &[Link],
    state: &mut TypingState,
) -> Result<Option<Ty>, ListFault>
    requires { C.ready inside.now }
    ensures { GivesAndLeaves (rule.chain (seen x.now) (phrase.expr (seen x.now) false (view.expr_view first.now)) (phrase.links (seen x.now) (view.links_of (map view.link_view rest.now))) state.old) result state.new }
{
    let number = fresh(state)?;
    let first = inside.expr(x, false, first, state)?;
    let ty = links(x, inside, first, rest, state)?;
    stands_as(x, number, ty, state)
}

#[tactic(auto, unfolding(qvt_typing::specs::Rules::prefix))]
pub fn prefix<C: NestedWalk>(
    x: &Context<'_>,
    inside: &C,
    signs: &[Sign],
    operand: &Expr,
    state: &mut TypingState,
) -> Result<Option<Ty>, ListFault>
    requires { C.ready inside.now }
    ensures { GivesAndLeaves (rule.prefix (seen x.now) signs.now (phrase.expr (seen x.now) false (view.expr_view operand.now)) state.old) result state.new }
{
    let number = fresh(state)?;
    sign_notes(signs, state)?;
    let operand = inside.expr(x, false, operand, state)?;
    let ty = signed(x, signs, operand, state)?;
    stands_as(x, number, ty, state)
}
