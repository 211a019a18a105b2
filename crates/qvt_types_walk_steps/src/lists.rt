//! Lists of expressions, arguments that are to be classes, and expressions that may be left out.

ghost use Rattle.std.specs.Prelude.{map, option_map, false};
ghost use Rattle.qvt_tree_types.specs.View as view;
ghost use Rattle.qvt_types_rules.specs.Seen.{seen};
ghost use Rattle.qvt_types_states.specs.Does.{GivesAndLeaves};
ghost use Rattle.qvt_typing.specs.Phrases as phrase;
ghost use Rattle.qvt_typing.specs.Rules as rule;

use crate::nested::NestedWalk;
use qvt_base::list_fault::ListFault;
use qvt_base::seq::Seq;
use qvt_tree_types::tree::Expr;
use qvt_types_data::ty::Ty;
use qvt_types_rules::context::Context;
use qvt_types_rules::leaves::class_given;
use qvt_types_rules::parts::no_path;
use qvt_types_states::state::TypingState;
use qvt_types_steps::classes::ClassPart;
use qvt_typing::parts::Given;

#[tactic(auto, unfolding(qvt_typing::specs::Phrases::exprs))]
pub fn exprs<C: NestedWalk>(
    x: &Context<'_>,
    inside: &C,
    nodes: &[Expr],
    state: &mut TypingState,
) -> Result<Seq<Option<Ty>>, ListFault>
    requires { C.ready inside.now }
    ensures { GivesAndLeaves (rule.in_order (phrase.exprs (seen x.now) (view.exprs_of (map view.expr_view nodes.now))) state.old) result state.new }
{
    let mut types = Seq::new(x.alloc);
    for node in nodes {
        let ty = inside.expr(x, false, node, state)?;
        types.push(ty)?;
    }
    Ok(types)
}

/// An argument that is to be a class.
fn class_argument<C: NestedWalk>(
    x: &Context<'_>,
    inside: &C,
    node: &Expr,
    state: &mut TypingState,
) -> Result<ClassPart, ListFault>
    requires { C.ready inside.now }
    ensures { GivesAndLeaves (rule.class_argument (seen x.now) (phrase.class_path (view.expr_view node.now)) (phrase.expr (seen x.now) false (view.expr_view node.now)) state.old) result state.new }
{
    match node {
        Expr::Path(names) => class_given(x, names, state),
        _ => {
            let ty = inside.expr(x, false, node, state)?;
            Ok(no_path(&ty))
        }
    }
}

#[tactic(auto, unfolding(qvt_typing::specs::Phrases::classes))]
pub fn classes<C: NestedWalk>(
    x: &Context<'_>,
    inside: &C,
    nodes: &[Expr],
    state: &mut TypingState,
) -> Result<Seq<ClassPart>, ListFault>
    requires { C.ready inside.now }
    ensures { GivesAndLeaves (rule.in_order (phrase.classes (seen x.now) (view.exprs_of (map view.expr_view nodes.now))) state.old) result state.new }
{
    let mut parts = Seq::new(x.alloc);
    for node in nodes {
        let part = class_argument(x, inside, node, state)?;
        parts.push(part)?;
    }
    Ok(parts)
}

fn written_expr<C: NestedWalk>(
    x: &Context<'_>,
    inside: &C,
    node: &Expr,
    state: &mut TypingState,
) -> Result<Given, ListFault>
    requires { C.ready inside.now }
    ensures { GivesAndLeaves (rule.is_written (phrase.expr (seen x.now) false (view.expr_view node.now)) state.old) result state.new }
{
    let ty = inside.expr(x, false, node, state)?;
    Ok(Given { is_given: true, ty })
}

#[tactic(auto, unfolding(qvt_typing::specs::Phrases::given_expr))]
pub fn given_expr<C: NestedWalk>(
    x: &Context<'_>,
    inside: &C,
    node: &Option<Expr>,
    state: &mut TypingState,
) -> Result<Given, ListFault>
    requires { C.ready inside.now }
    ensures { GivesAndLeaves (phrase.given_expr (seen x.now) (view.optional_expr (option_map view.expr_view node.now)) state.old) result state.new }
{
    match node {
        None => Ok(Given {
            is_given: false,
            ty: None,
        }),
        Some(node) => written_expr(x, inside, node, state),
    }
}

#[tactic(auto, unfolding(qvt_typing::specs::Phrases::given_expr))]
pub fn given_boxed<C: NestedWalk>(
    x: &Context<'_>,
    inside: &C,
    node: &Option<Box<Expr>>,
    state: &mut TypingState,
) -> Result<Given, ListFault>
    requires { C.ready inside.now }
    ensures { GivesAndLeaves (phrase.given_expr (seen x.now) (view.optional_expr (option_map (λ e. view.expr_view e.value) node.now)) state.old) result state.new }
{
    match node {
        None => Ok(Given {
            is_given: false,
            ty: None,
        }),
        Some(node) => written_expr(x, inside, node, state),
    }
}
