//! Steps on an expression or on a model.

ghost use Rattle.std.specs.Prelude.{map};
ghost use Rattle.qvt_tree_types.specs.View as view;
ghost use Rattle.qvt_types_rules.specs.Seen.{seen};
ghost use Rattle.qvt_types_states.specs.Does.{GivesAndLeaves};
ghost use Rattle.qvt_typing.specs.Phrases as phrase;

use qvt_base::list_fault::ListFault;
use qvt_tree_types::tree::{Expr, Step};
use qvt_types_data::ty::Ty;
use qvt_types_rules::context::Context;
use qvt_types_rules::leaves::path;
use qvt_types_rules::parts::model_path;
use qvt_types_rules::settling::stands_as;
use qvt_types_states::state::TypingState;
use qvt_types_states::steps::fresh;
use qvt_types_walk_steps::nested::NestedWalk;
use qvt_types_walk_steps::steps::all_steps;

#[tactic(auto, unfolding(qvt_typing::specs::Rules::post))]
pub fn post<C: NestedWalk>(
    x: &Context<'_>,
    inside: &C,
    late: bool,
    first: &Expr,
    list: &[Step],
    state: &mut TypingState,
) -> Result<Option<Ty>, ListFault>
    requires { C.ready inside.now }
    ensures { GivesAndLeaves (phrase.posted (seen x.now) late (view.expr_view first.now) (view.steps_of (map view.step_view list.now)) state.old) result state.new }
{
    let model = model_path(x, &state.scope, first, list);
    let number = fresh(state)?;
    let before = match model {
        Some(names) => path(x, true, names, state)?,
        None => inside.expr(x, false, first, state)?,
    };
    let ty = all_steps(x, inside, late, model.is_some(), before, list, state)?;
    stands_as(x, number, ty, state)
}
