ghost use Rattle.std.specs.Prelude.{◌≡◌, ◌++◌, [], true, option_map};
ghost use Rattle.qvt_tree_types.specs.Tree.{IfExpr, PathExpr, BareTarget};
ghost use Rattle.qvt_tree_types.specs.View.{expr_view, steps_of};
ghost use Rattle.qvt_language.specs.Trees as trees;
ghost use Rattle.qvt_parser_exprs.specs.Views.{boxed_view, first_view, lead_view, steps_view};
ghost use Rattle.qvt_parser_exprs.specs.Steps.{has_steps};
ghost use Rattle.qvt_parser_grammar.specs.Gives.{Makes, same};

use crate::leading::{First, Leading};
use qvt_base::numbers::Place;
use qvt_base::seq::Seq;
use qvt_language::class::Class;
use qvt_language::named::Named;
use qvt_parser_grammar::cursor::ParseError;
use qvt_tree_types::tree::{Expr, Step};
use qvt_tree_types::types::PathTree;
use qvt_tree_types::words::ResolveWord;
use std::alloc::Global;

/// Whether the word of a mapping call is `xmap`.
pub fn is_strict(class: Class) -> bool
    ensures { result ≡ trees.is_strict class }
{
    match class {
        Class::XmapWord => true,
        _ => false,
    }
}

/// The resolve that the word says.
pub fn resolve_word(class: Class) -> ResolveWord
    ensures { result ≡ trees.resolve_word class }
{
    match class {
        Class::ResolveAllWord => ResolveWord::Resolve,
        Class::ResolveOneWord => ResolveWord::ResolveOne,
        Class::InvResolveWord => ResolveWord::InvResolve,
        Class::InvResolveOneWord => ResolveWord::InvResolveOne,
        Class::ResolveInWord => ResolveWord::ResolveIn,
        Class::ResolveOneInWord => ResolveWord::ResolveOneIn,
        Class::InvResolveInWord => ResolveWord::InvResolveIn,
        _ => ResolveWord::InvResolveOneIn,
    }
}

/// The expression of an `if`.
pub fn conditional(condition: Box<Expr>, yes: Box<Expr>, no: Box<Expr>, place: Place) -> Expr
    ensures { expr_view result ≡ IfExpr (boxed_view condition) (boxed_view yes) (boxed_view no) place }
{
    Expr::If {
        condition,
        yes,
        no,
        place,
    }
}

/// The expression, which stands without brackets.
pub fn bare(alloc: Global, expr: Expr) -> Result<First, ParseError>
    ensures { Makes first_view result (expr_view expr, true) }
{
    let expr = Box::new(alloc, expr)?;
    Ok(First { expr, bare: true })
}

/// Whether the path is one name, and so may be a target.
pub fn is_name(path: &PathTree) -> bool
    ensures { result ≡ trees.is_there (trees.bare_target (PathExpr path.now)) }
{
    path.names.len() == 1
}

/// The one name that the path is.
pub fn only_name(path: PathTree) -> Option<Named>
    ensures { option_map (λ n. BareTarget n.text n.place) result ≡ trees.bare_target (PathExpr path) }
{
    let mut names = path.names;
    if names.len() != 1 {
        return None;
    }
    match names.pop() {
        Some(text) => Some(Named {
            text,
            place: path.place,
        }),
        None => None,
    }
}

/// An empty list, with room for one item where some follow: most lists have no second one.
pub fn short_list<T: Drop>(alloc: Global, some: bool) -> Result<Seq<T>, ParseError>
    ensures { Makes same result [] }
{
    if some {
        let items = Vec::with_capacity(alloc, 1)?;
        return Ok(Seq::from_vec(items));
    }
    Ok(Seq::new(alloc))
}

/// The steps of both.
#[inline(never)]
fn joined(old: Seq<Step>, more: Seq<Step>) -> Result<Seq<Step>, ParseError>
    ensures { Makes same result (old ++ more) }
{
    let mut steps = old;
    for step in more.into_vec() {
        steps.push(step)?;
    }
    Ok(steps)
}

/// The same, as the definition of steps that join others sees them.
fn all_steps(old: Seq<Step>, more: Seq<Step>) -> Result<Seq<Step>, ParseError>
    ensures { Makes (λ s. steps_of (steps_view s)) result (trees.more_steps (steps_of (steps_view old)) (steps_view more)) }
{
    joined(old, more)
}

/// Whether the expression ends in steps.
fn has_steps(expr: &Expr) -> bool
    ensures { result ≡ has_steps (expr_view expr.now) }
{
    match expr {
        Expr::Post { .. } => true,
        _ => false,
    }
}

/// Steps after an expression that ends in steps: they join them.
#[inline(never)]
#[tactic(auto, using(crate::proofs::Stepped::stepped_apart, crate::proofs::Stepped::stepped_more))]
fn longer_steps(
    alloc: Global,
    place: Place,
    first: Expr,
    steps: Seq<Step>,
) -> Result<Expr, ParseError>
    ensures { Makes expr_view result (trees.stepped place (expr_view first) (steps_view steps)) }
{
    match first.into_post() {
        Ok((first, old)) => {
            let steps = all_steps(old, steps)?;
            Ok(Expr::Post {
                first,
                steps,
                place,
            })
        }
        Err(first) => {
            let first = Box::new(alloc, first)?;
            Ok(Expr::Post {
                first,
                steps,
                place,
            })
        }
    }
}

/// Steps after an expression: where it has steps already, they join them.
#[tactic(auto, using(crate::proofs::Stepped::stepped_apart))]
fn stepped(
    alloc: Global,
    place: Place,
    first: Box<Expr>,
    steps: Seq<Step>,
) -> Result<Expr, ParseError>
    ensures { Makes expr_view result (trees.stepped place (boxed_view first) (steps_view steps)) }
{
    if has_steps(&first) {
        return longer_steps(alloc, place, Box::into_inner(first), steps);
    }
    Ok(Expr::Post {
        first,
        steps,
        place,
    })
}

/// Any number of steps after an expression.
pub fn posted(
    alloc: Global,
    place: Place,
    first: Box<Expr>,
    steps: Seq<Step>,
) -> Result<Expr, ParseError>
    ensures { Makes expr_view result (trees.post_of place (boxed_view first) (steps_view steps)) }
{
    if steps.is_empty() {
        return Ok(Box::into_inner(first));
    }
    stepped(alloc, place, first, steps)
}

/// The expression. The source stands for a `forEach`.
pub fn finish(alloc: Global, lead: Leading) -> Result<Expr, ParseError>
    ensures { Makes expr_view result (trees.expr_of (lead_view lead)) }
{
    match lead {
        Leading::Bare(expr) => Ok(Box::into_inner(expr)),
        Leading::Post {
            first,
            steps,
            place,
        } => posted(alloc, place, first, steps),
        Leading::Bracketed(expr) => Ok(Box::into_inner(expr)),
        Leading::Done(expr) => Ok(Box::into_inner(expr)),
        Leading::Each { source, .. } => Ok(Box::into_inner(source)),
    }
}

/// The same, on the heap.
pub fn boxed(alloc: Global, lead: Leading) -> Result<Box<Expr>, ParseError>
    ensures { Makes boxed_view result (trees.expr_of (lead_view lead)) }
{
    match lead {
        Leading::Bare(expr) => Ok(expr),
        Leading::Post {
            first,
            steps,
            place,
        } => {
            let expr = posted(alloc, place, first, steps)?;
            let expr = Box::new(alloc, expr)?;
            Ok(expr)
        }
        Leading::Bracketed(expr) => Ok(expr),
        Leading::Done(expr) => Ok(expr),
        Leading::Each { source, .. } => Ok(source),
    }
}
