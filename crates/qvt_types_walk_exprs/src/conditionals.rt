//! Conditionals.

ghost use Rattle.std.specs.Prelude.{false};
ghost use Rattle.qvt_tree_types.specs.View as view;
ghost use Rattle.qvt_types_rules.specs.Seen.{seen};
ghost use Rattle.qvt_types_states.specs.Does.{GivesAndLeaves};
ghost use Rattle.qvt_types_words.specs.Rulings as rulings;
ghost use Rattle.qvt_typing.specs.declared.parts.Effect.TheVariants as effects;
ghost use Rattle.qvt_typing.specs.Phrases as phrase;
ghost use Rattle.qvt_typing.specs.Rules as rule;

use qvt_base::list_fault::ListFault;
use qvt_base::numbers::{ExprNo, Place};
use qvt_tree_types::tree::Expr;
use qvt_types_data::ty::Ty;
use qvt_types_rules::context::Context;
use qvt_types_rules::settling::ruled;
use qvt_types_states::state::TypingState;
use qvt_types_states::steps::fresh;
use qvt_types_walk_steps::nested::NestedWalk;
use qvt_types_words::rulings::conditional as conditional_ruling;
use qvt_typing::parts::Effect;

/// Settles a conditional by the types of its parts.
fn settled(
    x: &Context<'_>,
    number: ExprNo,
    condition: &Option<Ty>,
    yes: &Option<Ty>,
    no: &Option<Ty>,
    place: Place,
    state: &mut TypingState,
) -> Result<Option<Ty>, ListFault>
    ensures { GivesAndLeaves (rule.ruled (seen x.now) number (rulings.conditional x.now.heads.units.now.metas condition.now yes.now no.now) effects.PlainOne place state.old) result state.new }
{
    let ruling = conditional_ruling(x.alloc, x.heads.units.metas(), condition, yes, no)?;
    ruled(x, number, ruling, Effect::PlainOne, place, state)
}

#[tactic(auto, unfolding(qvt_typing::specs::Rules::conditional))]
pub fn conditional<C: NestedWalk>(
    x: &Context<'_>,
    inside: &C,
    condition: &Expr,
    yes: &Expr,
    no: &Expr,
    place: Place,
    state: &mut TypingState,
) -> Result<Option<Ty>, ListFault>
    requires { C.ready inside.now }
    ensures { GivesAndLeaves (rule.conditional (seen x.now) (phrase.expr (seen x.now) false (view.expr_view condition.now)) (phrase.expr (seen x.now) false (view.expr_view yes.now)) (phrase.expr (seen x.now) false (view.expr_view no.now)) place state.old) result state.new }
{
    let number = fresh(state)?;
    let condition = inside.expr(x, false, condition, state)?;
    let yes = inside.expr(x, false, yes, state)?;
    let no = inside.expr(x, false, no, state)?;
    settled(x, number, &condition, &yes, &no, place, state)
}
