//! Which expressions are quiet.

ghost use Rattle.std.specs.Prelude.{◌≡◌, is_none, map};
ghost use Rattle.qvt_types_nodes.specs.View.{typed_expr_view, typed_exprs_of, typed_link_view, typed_links_of, typed_step_view, typed_steps_of};
ghost use Rattle.qvt_meaning.specs.Nodes.{model_named};
ghost use Rattle.qvt_exec_quiet.specs.Leaves as quiet;

use crate::operations::operation_alone;
use qvt_types_data::note::{Note, Reading};
use qvt_types_nodes::tree::{TypedExpr, TypedLink, TypedStep};

/// Whether it is no name of a model.
fn is_no_model(node: &TypedExpr) -> bool
    ensures { result ≡ is_none (model_named (typed_expr_view node.now)) }
{
    match node {
        TypedExpr::Path(path) => !matches!(&path.note.reading, Reading::Model(_)),
        _ => true,
    }
}

/// Whether a dot calls no unit and goes over no collection.
fn is_quiet_dot(note: &Note) -> bool
    ensures { result ≡ quiet.is_quiet_dot note.now }
{
    !note.collect && !matches!(&note.reading, Reading::Units(_))
}

/// Whether the operands of a chain are.
#[cycle(quiet)]
fn are_quiet_links(links: &[TypedLink]) -> bool
    ensures { result ≡ quiet.are_quiet_links (typed_links_of (map typed_link_view links.now)) }
{
    for link in links {
        if !is_quiet(&link.operand) {
            return false;
        }
    }
    true
}

/// Whether a step is a property or an operation with arguments that are.
#[cycle(quiet)]
fn is_quiet_step(step: &TypedStep) -> bool
    ensures { result ≡ quiet.is_quiet_step (typed_step_view step.now) }
{
    match step {
        TypedStep::Dot { args, note, .. } => match args {
            None => is_quiet_dot(note),
            Some(args) => is_quiet_dot(note) && are_quiet(args.as_slice()),
        },
        TypedStep::Arrow { name, args, .. } => {
            operation_alone(name).is_some() && are_quiet(args.as_slice())
        }
        _ => false,
    }
}

/// Whether all steps are.
#[cycle(quiet)]
fn are_quiet_steps(steps: &[TypedStep]) -> bool
    ensures { result ≡ quiet.are_quiet_steps (typed_steps_of (map typed_step_view steps.now)) }
{
    for step in steps {
        if !is_quiet_step(step) {
            return false;
        }
    }
    true
}

/// Whether the expression is one of literals, names, signs, operators, properties and operations.
#[cycle(quiet)]
pub fn is_quiet(node: &TypedExpr) -> bool
    ensures { result ≡ quiet.is_quiet (typed_expr_view node.now) }
{
    match node {
        TypedExpr::Int { .. } => true,
        TypedExpr::Str { .. } => true,
        TypedExpr::Bool { .. } => true,
        TypedExpr::Null { .. } => true,
        TypedExpr::SelfRef { .. } => true,
        TypedExpr::ResultRef { .. } => true,
        TypedExpr::Path(_) => true,
        TypedExpr::Chain { first, rest, .. } => is_quiet(first) && are_quiet_links(rest.as_slice()),
        TypedExpr::Prefix { operand, .. } => is_quiet(operand),
        TypedExpr::Post { first, steps, .. } => {
            is_no_model(first) && (is_quiet(first) && are_quiet_steps(steps.as_slice()))
        }
        _ => false,
    }
}

/// Whether all of them are.
#[cycle(quiet)]
pub fn are_quiet(nodes: &[TypedExpr]) -> bool
    ensures { result ≡ quiet.are_quiet (typed_exprs_of (map typed_expr_view nodes.now)) }
{
    for node in nodes {
        if !is_quiet(node) {
            return false;
        }
    }
    true
}
