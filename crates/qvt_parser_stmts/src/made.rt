ghost use Rattle.std.specs.Prelude.{◌≡◌, IsTrue, Some, List, option_map};
ghost use Rattle.qvt_base.specs.declared.numbers.Place as places;
ghost use Rattle.qvt_tree_types.specs.Tree.{ExprTerm, StepTerm, AssignStmt, ValueStmt};
ghost use Rattle.qvt_tree_types.specs.Parts.{result_in};
ghost use Rattle.qvt_tree_types.specs.View.{expr_view, step_view, target_view, stmt_view};
ghost use Rattle.qvt_parser_grammar.specs.Gives.{Makes};
ghost use Rattle.qvt_language.specs.StmtTrees as statements;
ghost use Rattle.qvt_language.specs.Trees as trees;
ghost use Rattle.qvt_parser_exprs.specs.Views.{boxed_view, lead_view, each_view, steps_view, stmts_view};
ghost use Rattle.qvt_parser_stmts.specs.Brackets.{in_brackets};
ghost use Rattle.qvt_parser_stmts.specs.Turns.{AddsIf};
ghost use Rattle.qvt_parser_stmts.specs.Views.{held_view, turn_view};

use crate::turns::Turn;
use qvt_base::numbers::Place;
use qvt_base::seq::Seq;
use qvt_language::class::Class;
use qvt_parser_exprs::leading::{EachTail, Leading};
use qvt_parser_exprs::made::{is_name, only_name, posted};
use qvt_parser_grammar::cursor::ParseError;
use qvt_tree_types::tree::{Expr, Step, Stmt, Target};
use std::alloc::Global;

/// Whether the sign of an assignment is `+=`.
fn is_adding(class: Class) -> bool
    ensures { result ≡ statements.is_adding class }
{
    match class {
        Class::PlusEqual => true,
        _ => false,
    }
}

/// Whether the step is a name without arguments.
fn is_member(step: &Step) -> bool
    ensures { (place : places.Place) (e : ExprTerm) (before : List StepTerm) → result ≡ trees.is_there (trees.member_of place e (before, step_view step.now)) }
{
    match step {
        Step::Dot { args, .. } => args.is_none(),
        _ => false,
    }
}

/// Whether the last step is a name without arguments.
fn ends_in_member(steps: &[Step]) -> bool
    ensures { (place : places.Place) (e : ExprTerm) → result ≡ trees.is_there (trees.member_target place e (steps_view steps.now)) }
{
    match steps.split_last() {
        Some((last, _)) => is_member(last),
        None => false,
    }
}

/// The target that ends in the step.
#[tactic(auto, using(crate::proofs::Members::member_there, crate::proofs::Members::no_member))]
fn member_at(
    alloc: Global,
    place: Place,
    first: Box<Expr>,
    before: Seq<Step>,
    step: Step,
) -> Result<Target, ParseError>
    requires { IsTrue (trees.is_there (trees.member_of place (boxed_view first) (steps_view before, step_view step))) }
    ensures { Makes (λ t. Some (target_view t)) result (trees.member_of place (boxed_view first) (steps_view before, step_view step)) }
{
    match step.into_member() {
        Some((name, at)) => {
            let object = posted(alloc, place, first, before)?;
            Ok(Target::Member {
                object,
                name,
                place: at,
            })
        }
        None => Err(ParseError::Syntax),
    }
}

/// The target that the steps end in.
fn member(
    alloc: Global,
    place: Place,
    first: Box<Expr>,
    steps: Seq<Step>,
) -> Result<Target, ParseError>
    requires { IsTrue (trees.is_there (trees.member_target place (boxed_view first) (steps_view steps))) }
    ensures { Makes (λ t. Some (target_view t)) result (trees.member_target place (boxed_view first) (steps_view steps)) }
{
    let mut before = steps;
    match before.pop() {
        Some(step) => member_at(alloc, place, first, before, step),
        None => Err(ParseError::Syntax),
    }
}

/// Whether the expression is one name or `result`.
fn is_bare_target(expr: &Expr) -> bool
    ensures { result ≡ trees.is_there (trees.bare_target (expr_view expr.now)) }
{
    match expr {
        Expr::Path(path) => is_name(path),
        Expr::ResultRef { .. } => true,
        _ => false,
    }
}

/// The place of `result`, where the expression is that.
fn result_place(expr: &Expr) -> Option<Place>
    ensures { result ≡ result_in (expr_view expr.now) }
{
    match expr {
        Expr::ResultRef { place } => Some(*place),
        _ => None,
    }
}

/// The expression as what is assigned to, where it is one name or `result`.
#[tactic(auto, using(crate::proofs::Members::bare_result, crate::proofs::Members::bare_path, crate::proofs::Members::bare_none))]
fn bare_target(expr: Expr) -> Option<Target>
    ensures { option_map target_view result ≡ trees.bare_target (expr_view expr) }
{
    if let Some(place) = result_place(&expr) {
        return Some(Target::ResultVar { place });
    }
    let name = only_name(expr.into_path()?)?;
    Some(Target::Bare {
        name: name.text,
        place: name.place,
    })
}

/// Whether the expression may stand at the left of an assignment.
pub fn has_target(lead: &Leading) -> bool
    ensures { result ≡ trees.is_there (statements.target_in (lead_view lead.now)) }
{
    match lead {
        Leading::Bare(expr) => is_bare_target(expr),
        Leading::Post { steps, .. } => ends_in_member(steps.as_slice()),
        Leading::Bracketed(_) => false,
        Leading::Done(_) => false,
        Leading::Each { .. } => false,
    }
}

/// Whether the expression stands in brackets alone.
pub fn is_bracketed(lead: &Leading) -> bool
    ensures { result ≡ in_brackets (lead_view lead.now) }
{
    match lead {
        Leading::Bracketed(_) => true,
        _ => false,
    }
}

/// The expression as what is assigned to.
pub fn into_target(alloc: Global, lead: Leading) -> Result<Target, ParseError>
    requires { IsTrue (trees.is_there (statements.target_in (lead_view lead))) }
    ensures { Makes (λ t. Some (target_view t)) result (statements.target_in (lead_view lead)) }
{
    match lead {
        Leading::Bare(expr) => match bare_target(Box::into_inner(expr)) {
            Some(target) => Ok(target),
            None => Err(ParseError::Syntax),
        },
        Leading::Post {
            first,
            steps,
            place,
        } => member(alloc, place, first, steps),
        _ => Err(ParseError::Syntax),
    }
}

/// The statement, on the heap.
pub fn held(alloc: Global, stmt: Stmt) -> Result<Box<Stmt>, ParseError>
    ensures { Makes held_view result (stmt_view stmt) }
{
    let stmt = Box::new(alloc, stmt)?;
    Ok(stmt)
}

/// The statement of an assignment by a sign of the class.
pub fn assign(target: Target, class: Class, value: Box<Expr>, place: Place) -> Stmt
    ensures { stmt_view result ≡ AssignStmt (target_view target) (statements.is_adding class) (boxed_view value) place }
{
    Stmt::Assign {
        target,
        adds: is_adding(class),
        value: Box::into_inner(value),
        place,
    }
}

/// The statement of an expression alone.
pub fn evaluate(value: Expr, place: Place) -> Stmt
    ensures { stmt_view result ≡ ValueStmt (expr_view value) place }
{
    Stmt::Value { value, place }
}

/// The statement of a `forEach`.
pub fn for_each(source: Expr, part: EachTail, place: Place) -> Stmt
    ensures { stmt_view result ≡ statements.for_each_of (expr_view source) (each_view part) place }
{
    Stmt::ForEach {
        source,
        name: part.name,
        kind: part.kind,
        condition: part.condition,
        body: part.body,
        place,
    }
}

/// Puts the statement of a turn after the others, and tells whether it was the last one.
pub fn add_turn(stmts: &mut Seq<Stmt>, turn: Turn) -> Result<bool, ParseError>
    ensures { AddsIf (turn_view turn) (stmts_view stmts.old) (stmts_view stmts.new) result }
{
    match turn {
        Turn::Empty => Ok(false),
        Turn::Closed(stmt) => {
            stmts.push(Box::into_inner(stmt))?;
            Ok(false)
        }
        Turn::Last(stmt) => {
            stmts.push(Box::into_inner(stmt))?;
            Ok(true)
        }
    }
}
