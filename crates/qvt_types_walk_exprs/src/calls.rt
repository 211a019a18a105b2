//! Calls on the implicit source, or without a context.

ghost use Rattle.std.specs.Prelude.{map};
ghost use Rattle.qvt_tree_types.specs.View as view;
ghost use Rattle.qvt_types_rules.specs.Seen.{seen};
ghost use Rattle.qvt_types_states.specs.Does.{GivesAndLeaves};
ghost use Rattle.qvt_typing.specs.Phrases as phrase;
ghost use Rattle.qvt_typing.specs.Rules as rule;

use qvt_base::list_fault::ListFault;
use qvt_base::numbers::Place;
use qvt_base::text::Text;
use qvt_tree_types::tree::{Expr, MapCall};
use qvt_types_data::ty::Ty;
use qvt_types_rules::calls::{call_ruled, called_alone, effect_of};
use qvt_types_rules::context::Context;
use qvt_types_rules::parts::all_types;
use qvt_types_rules::settling::ruled;
use qvt_types_states::state::TypingState;
use qvt_types_states::steps::fresh;
use qvt_types_walk_steps::lists::exprs;
use qvt_types_walk_steps::nested::NestedWalk;
use qvt_typing::parts::Effect;

#[tactic(auto, unfolding(qvt_typing::specs::Rules::call))]
pub fn call<C: NestedWalk>(
    x: &Context<'_>,
    inside: &C,
    name: &Text,
    args: &[Expr],
    place: Place,
    state: &mut TypingState,
) -> Result<Option<Ty>, ListFault>
    requires { C.ready inside.now }
    ensures { GivesAndLeaves (rule.call (seen x.now) name.now (phrase.exprs (seen x.now) (view.exprs_of (map view.expr_view args.now))) place state.old) result state.new }
{
    let number = fresh(state)?;
    let types = all_types(x.alloc, exprs(x, inside, args, state)?.as_slice())?;
    let sources = state.scope.sources();
    let called = called_alone(x.alloc, &x.heads, false, name.as_str(), sources)?;
    let ruling = call_ruled(x.alloc, &x.heads, false, &called, &types)?;
    let effect = effect_of(x.alloc, &x.heads, &called);
    ruled(x, number, ruling, effect, place, state)
}

#[tactic(auto, unfolding(qvt_typing::specs::Rules::map))]
fn mapped<C: NestedWalk>(
    x: &Context<'_>,
    inside: &C,
    name: &Text,
    args: &[Expr],
    place: Place,
    state: &mut TypingState,
) -> Result<Option<Ty>, ListFault>
    requires { C.ready inside.now }
    ensures { GivesAndLeaves (rule.map (seen x.now) name.now (phrase.exprs (seen x.now) (view.exprs_of (map view.expr_view args.now))) place state.old) result state.new }
{
    let number = fresh(state)?;
    let types = all_types(x.alloc, exprs(x, inside, args, state)?.as_slice())?;
    let sources = state.scope.sources();
    let called = called_alone(x.alloc, &x.heads, true, name.as_str(), sources)?;
    let ruling = call_ruled(x.alloc, &x.heads, true, &called, &types)?;
    ruled(x, number, ruling, Effect::ImpureOne, place, state)
}

#[tactic(auto, unfolding(qvt_typing::specs::Phrases::mapped))]
pub fn map_call<C: NestedWalk>(
    x: &Context<'_>,
    inside: &C,
    call: &MapCall,
    state: &mut TypingState,
) -> Result<Option<Ty>, ListFault>
    requires { C.ready inside.now }
    ensures { GivesAndLeaves (phrase.mapped (seen x.now) (view.map_view call.now) state.old) result state.new }
{
    mapped(
        x,
        inside,
        &call.name,
        call.args.as_slice(),
        call.place,
        state,
    )
}
