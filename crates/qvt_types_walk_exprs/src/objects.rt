//! New objects.

ghost use Rattle.std.specs.Prelude.{map};
ghost use Rattle.qvt_tree_types.specs.View as view;
ghost use Rattle.qvt_types_rules.specs.Seen.{seen};
ghost use Rattle.qvt_types_states.specs.Does.{GivesAndLeaves};
ghost use Rattle.qvt_typing.specs.Phrases as phrase;
ghost use Rattle.qvt_typing.specs.Rules as rule;

use qvt_base::list_fault::ListFault;
use qvt_base::numbers::Place;
use qvt_base::text::Text;
use qvt_tree_types::tree::{Expr, Stmts};
use qvt_tree_types::types::{ObjectVar, PathTree};
use qvt_types_data::ty::Ty;
use qvt_types_rules::context::Context;
use qvt_types_rules::leaves::named_class;
use qvt_types_rules::objects::{
    class_beside, constructed, object_ruled, object_variable, tell_abstract, tell_extent,
};
use qvt_types_rules::parts::all_types;
use qvt_types_rules::settling::ruled;
use qvt_types_states::state::TypingState;
use qvt_types_states::steps::fresh;
use qvt_types_walk_steps::lists::exprs;
use qvt_types_walk_steps::nested::NestedWalk;
use qvt_typing::parts::Effect;

#[tactic(auto, unfolding(qvt_typing::specs::Rules::object))]
pub fn object<C: NestedWalk>(
    x: &Context<'_>,
    inside: &C,
    variable: &Option<ObjectVar>,
    path: &PathTree,
    extent: &Option<Text>,
    body: &Stmts,
    place: Place,
    state: &mut TypingState,
) -> Result<Option<Ty>, ListFault>
    requires { C.ready inside.now }
    ensures { GivesAndLeaves (rule.object (seen x.now) (phrase.object_variable (seen x.now) variable.now) path.now extent.now (phrase.object_body (seen x.now) (view.stmts_of (map view.stmt_view body.now))) place state.old) result state.new }
{
    let number = fresh(state)?;
    let variable = object_variable(x, variable, state)?;
    let class = named_class(x, path, state)?;
    tell_abstract(x, class, path.place, state)?;
    let inner = Context {
        object: class,
        ..*x
    };
    inside.block(&inner, body, state)?;
    tell_extent(x, extent, class_beside(&variable, class), place, state)?;
    let ruling = object_ruled(x, &variable, extent, class);
    ruled(x, number, ruling, Effect::ImpureOne, place, state)
}

#[tactic(auto, unfolding(qvt_typing::specs::Rules::new))]
pub fn new<C: NestedWalk>(
    x: &Context<'_>,
    inside: &C,
    path: &PathTree,
    extent: &Option<Text>,
    args: &[Expr],
    place: Place,
    state: &mut TypingState,
) -> Result<Option<Ty>, ListFault>
    requires { C.ready inside.now }
    ensures { GivesAndLeaves (rule.new (seen x.now) path.now extent.now (phrase.exprs (seen x.now) (view.exprs_of (map view.expr_view args.now))) place state.old) result state.new }
{
    let number = fresh(state)?;
    let class = named_class(x, path, state)?;
    tell_abstract(x, class, path.place, state)?;
    let types = all_types(x.alloc, exprs(x, inside, args, state)?.as_slice())?;
    constructed(x, number, (class, path.place), extent, &types, place, state)
}
