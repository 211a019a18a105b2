//! Expressions.

ghost use Rattle.qvt_tree_types.specs.View as view;
ghost use Rattle.qvt_types_rules.specs.Seen.{seen};
ghost use Rattle.qvt_types_states.specs.Does.{GivesAndLeaves};
ghost use Rattle.qvt_typing.specs.Phrases as phrase;

use crate::calls::{call, map_call};
use crate::conditionals::conditional;
use crate::literals::literal;
use crate::objects::{new, object};
use crate::operands::{chain, prefix};
use crate::posts::post;
use qvt_base::list_fault::ListFault;
use qvt_tree_types::tree::Expr;
use qvt_types_data::ty::Ty;
use qvt_types_rules::context::Context;
use qvt_types_rules::leaves::{path, result_ref, self_ref};
use qvt_types_rules::settling::constant;
use qvt_types_states::state::TypingState;
use qvt_types_walk_steps::nested::NestedWalk;
use qvt_types_walk_steps::resolves::resolve_call;

/// An expression by its rule, over what stands inside it.
#[tactic(auto, unfolding(qvt_typing::specs::Phrases::expr))]
pub fn expression<C: NestedWalk>(
    x: &Context<'_>,
    inside: &C,
    late: bool,
    node: &Expr,
    state: &mut TypingState,
) -> Result<Option<Ty>, ListFault>
    requires { C.ready inside.now }
    ensures { GivesAndLeaves (phrase.expr (seen x.now) late (view.expr_view node.now) state.old) result state.new }
{
    match node {
        Expr::Int { .. } => constant(x, Ty::Integer, state),
        Expr::Str { .. } => constant(x, Ty::Str, state),
        Expr::Bool { .. } => constant(x, Ty::Boolean, state),
        Expr::Null { .. } => constant(x, Ty::Void, state),
        Expr::SelfRef { place } => self_ref(x, *place, state),
        Expr::ResultRef { place } => result_ref(x, *place, state),
        Expr::Path(names) => path(x, false, names, state),
        Expr::Call { name, args, place } => call(x, inside, name, args.as_slice(), *place, state),
        Expr::Coll { kind, items, place } => {
            literal(x, inside, *kind, items.as_slice(), *place, state)
        }
        Expr::If {
            condition,
            yes,
            no,
            place,
        } => conditional(x, inside, condition, yes, no, *place, state),
        Expr::Object {
            variable,
            path,
            extent,
            body,
            place,
        } => object(x, inside, variable, path, extent, body, *place, state),
        Expr::New {
            path,
            extent,
            args,
            place,
        } => new(x, inside, path, extent, args.as_slice(), *place, state),
        Expr::Map(map) => map_call(x, inside, map, state),
        Expr::Resolve(resolve) => resolve_call(x, inside, late, resolve, state),
        Expr::Chain { first, rest, .. } => chain(x, inside, first, rest.as_slice(), state),
        Expr::Prefix { signs, operand, .. } => prefix(x, inside, signs.as_slice(), operand, state),
        Expr::Post { first, steps, .. } => post(x, inside, late, first, steps.as_slice(), state),
    }
}
