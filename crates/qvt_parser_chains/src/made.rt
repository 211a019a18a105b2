ghost use Rattle.std.specs.Prelude.{◌≡◌, ◌==◌, ◌<◌, ◌∷◌, ◌++◌, [], length, false, None};
ghost use Rattle.qvt_tree_types.specs.Tree.{HeadOf, LinkOf, PrefixExpr};
ghost use Rattle.qvt_tree_types.specs.View.{accumulator_view, expr_view, head_view, link_view, optional_accumulator, optional_type};
ghost use Rattle.qvt_language.specs.Leads.{Plain};
ghost use Rattle.qvt_language.specs.Trees as trees;
ghost use Rattle.qvt_language.specs.Grammar as grammar;
ghost use Rattle.qvt_parser_grammar.specs.Options.{option_view};
ghost use Rattle.qvt_parser_exprs.specs.Views.{boxed_view, first_view, lead_view, held_each_view, exprs_view, links_view, steps_view};
ghost use Rattle.qvt_parser_grammar.specs.Gives.{Makes, same};
ghost use Rattle.qvt_parser_chains.specs.Heads.{name_in};

use qvt_base::numbers::Place;
use qvt_base::seq::Seq;
use qvt_language::class::Class;
use qvt_language::named::Named;
use qvt_parser_exprs::leading::{EachTail, First, Leading};
use qvt_parser_exprs::made::{boxed, finish, is_name, only_name, posted, short_list};
use qvt_parser_grammar::cursor::ParseError;
use qvt_tree_types::tree::{Accumulator, Expr, Head, Link, Step};
use qvt_tree_types::types::TypeTree;
use qvt_tree_types::words::{BinaryOp, Level, Sign};
use std::alloc::Global;

/// The operator of the sign. `==` means `=`, and `!=` means `<>`.
pub fn binary_op(class: Class) -> BinaryOp
    ensures { result ≡ trees.binary_op class }
{
    match class {
        Class::ImpliesWord => BinaryOp::Implies,
        Class::XorWord => BinaryOp::Xor,
        Class::OrWord => BinaryOp::Or,
        Class::AndWord => BinaryOp::And,
        Class::EqualSign => BinaryOp::Equal,
        Class::DoubleEqual => BinaryOp::Equal,
        Class::Diamond => BinaryOp::NotEqual,
        Class::BangEqual => BinaryOp::NotEqual,
        Class::LessSign => BinaryOp::Less,
        Class::AtMost => BinaryOp::LessEqual,
        Class::GreaterSign => BinaryOp::Greater,
        Class::AtLeast => BinaryOp::GreaterEqual,
        Class::PlusSign => BinaryOp::Plus,
        Class::MinusSign => BinaryOp::Minus,
        _ => BinaryOp::Times,
    }
}

/// The level of this number, the tightest first.
fn level_of(level: usize) -> Level
    requires { level < 8 }
    ensures { result ≡ grammar.level_of level }
{
    match level {
        0 => Level::Product,
        1 => Level::Sum,
        2 => Level::Relation,
        3 => Level::Equality,
        4 => Level::And,
        5 => Level::Or,
        6 => Level::Xor,
        _ => Level::Implies,
    }
}

/// The head of an iterator.
pub fn head_of(name: Named, kind: Option<TypeTree>, accumulator: Option<Accumulator>) -> Head
    ensures { head_view result ≡ HeadOf name.text (optional_type kind) (optional_accumulator (option_view accumulator_view accumulator)) name.place }
{
    Head {
        name: name.text,
        kind,
        accumulator,
        place: name.place,
    }
}

/// The list of one expression.
pub fn one_expr(alloc: Global, expr: Box<Expr>) -> Result<Seq<Expr>, ParseError>
    ensures { Makes exprs_view result (boxed_view expr ∷ []) }
{
    let mut exprs = short_list(alloc, true)?;
    exprs.push(Box::into_inner(expr))?;
    Ok(exprs)
}

/// Whether the expression is one name.
fn is_path_name(expr: &Expr) -> bool
    ensures { result ≡ trees.is_there (name_in (Plain (expr_view expr.now) (trees.bare_target (expr_view expr.now)))) }
{
    match expr {
        Expr::Path(path) => is_name(path),
        _ => false,
    }
}

/// The one name that the expression is.
#[tactic(auto, using(crate::proofs::Heads::named_path, crate::proofs::Heads::no_name))]
fn path_name(expr: Expr) -> Option<Named>
    ensures { result ≡ name_in (Plain (expr_view expr) (trees.bare_target (expr_view expr))) }
{
    match expr.into_path() {
        Some(path) => only_name(path),
        None => None,
    }
}

/// Whether what is read is one name.
pub fn is_head(lead: &Leading) -> bool
    ensures { result ≡ trees.is_there (name_in (lead_view lead.now)) }
{
    match lead {
        Leading::Bare(expr) => is_path_name(expr),
        _ => false,
    }
}

/// The one name that is read.
pub fn head_name(lead: Leading) -> Option<Named>
    ensures { result ≡ name_in (lead_view lead) }
{
    match lead {
        Leading::Bare(expr) => path_name(Box::into_inner(expr)),
        _ => None,
    }
}

/// A primary with the steps after it. It is a target where the last step is a name without
/// arguments, or where it is a name or `result` without brackets and steps.
pub fn post_lead(place: Place, first: First, steps: Seq<Step>) -> Leading
    ensures { lead_view result ≡ trees.post_lead (place, (first_view first, steps_view steps)) }
{
    if !steps.is_empty() {
        return Leading::Post {
            first: first.expr,
            steps,
            place,
        };
    }
    if first.bare {
        Leading::Bare(first.expr)
    } else {
        Leading::Bracketed(first.expr)
    }
}

/// The same, or a `forEach` over it.
pub fn each_lead(
    alloc: Global,
    place: Place,
    first: First,
    steps: Seq<Step>,
    part: Option<Box<EachTail>>,
) -> Result<Leading, ParseError>
    ensures { Makes lead_view result (trees.each_lead (place, (first_view first, (steps_view steps, option_view held_each_view part)))) }
{
    match part {
        None => Ok(post_lead(place, first, steps)),
        Some(part) => {
            let source = posted(alloc, place, first.expr, steps)?;
            let source = Box::new(alloc, source)?;
            Ok(Leading::Each { source, part })
        }
    }
}

/// These signs, and then the old ones.
fn all_signs(
    alloc: Global,
    first: Sign,
    more: Seq<Sign>,
    old: &[Sign],
) -> Result<Seq<Sign>, ParseError>
    ensures { Makes same result (first ∷ (more ++ old.now)) }
{
    let mut signs = Seq::new(alloc);
    signs.push(first)?;
    signs.extend(more.as_slice())?;
    signs.extend(old)?;
    Ok(signs)
}

/// An operand with signs before it.
fn with_signs(
    alloc: Global,
    place: Place,
    signs: Seq<Sign>,
    operand: Box<Expr>,
) -> Result<Leading, ParseError>
    ensures { Makes lead_view result (Plain (PrefixExpr signs (boxed_view operand) place) None) }
{
    let expr = Box::new(
        alloc,
        Expr::Prefix {
            signs,
            operand,
            place,
        },
    )?;
    Ok(Leading::Done(expr))
}

/// Signs before an operand. Where it has signs of its own, they join them.
#[tactic(auto, using(crate::proofs::Signs::signed_apart, crate::proofs::Signs::signed_more))]
pub fn prefixed(
    alloc: Global,
    place: Place,
    first: Sign,
    more: Seq<Sign>,
    operand: Expr,
) -> Result<Leading, ParseError>
    ensures { Makes lead_view result (Plain (trees.signed place (first ∷ more) (expr_view operand)) None) }
{
    match operand.into_prefix() {
        Ok((old, operand)) => {
            let signs = all_signs(alloc, first, more, old.as_slice())?;
            with_signs(alloc, place, signs, operand)
        }
        Err(operand) => {
            let signs = all_signs(alloc, first, more, &[])?;
            let operand = Box::new(alloc, operand)?;
            with_signs(alloc, place, signs, operand)
        }
    }
}

/// The operand after an operator.
pub fn linked(
    alloc: Global,
    class: Class,
    place: Place,
    operand: Leading,
) -> Result<Link, ParseError>
    ensures { Makes link_view result (LinkOf (trees.binary_op class) (trees.expr_of (lead_view operand)) place) }
{
    let operand = finish(alloc, operand)?;
    Ok(Link {
        op: binary_op(class),
        operand,
        place,
    })
}

/// Operands with operators between them. One operand alone is itself.
pub fn chained(
    alloc: Global,
    level: usize,
    place: Place,
    first: Leading,
    rest: Seq<Link>,
) -> Result<Leading, ParseError>
    requires { level < 8 }
    ensures { Makes lead_view result (trees.chain_of (grammar.level_of level) (place, (lead_view first, links_view rest))) }
{
    if rest.is_empty() {
        return Ok(first);
    }
    longer(alloc, level, place, first, rest)
}

/// The same of two operands or more.
#[inline(never)]
fn longer(
    alloc: Global,
    level: usize,
    place: Place,
    first: Leading,
    rest: Seq<Link>,
) -> Result<Leading, ParseError>
    requires level { level < 8 }
    requires longer { (length rest == 0) ≡ false }
    ensures { Makes lead_view result (trees.chain_of (grammar.level_of level) (place, (lead_view first, links_view rest))) }
{
    let first = boxed(alloc, first)?;
    let chain = Box::new(
        alloc,
        Expr::Chain {
            level: level_of(level),
            first,
            rest,
            place,
        },
    )?;
    Ok(Leading::Done(chain))
}
