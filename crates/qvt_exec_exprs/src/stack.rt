//! How much of the stack expressions take.

ghost use Rattle.std.specs.Prelude.{IfSome, ◌<◌};

use qvt_types_data::note::{Note, Reading};
use qvt_types_nodes::tree::{TypedExpr, TypedExprList, TypedStep};

/// How many bytes an expression takes with its steps, where nothing stands inside them.
const CLOSED: u32 = 700;

/// How many where phrases or calls stand inside them.
const OPEN: u32 = 3650;

/// How many where they may be the steps of a model too.
const OF_MODEL: u32 = 4100;

/// Whether a phrase or a call may stand inside a step behind a dot.
fn is_open_dot(args: &Option<TypedExprList>, note: &Note) -> bool {
    match args {
        None => false,
        Some(args) => match &note.reading {
            Reading::Operation(_) => !args.is_empty(),
            _ => true,
        },
    }
}

/// Whether a phrase or a call may stand inside a step.
fn is_open(step: &TypedStep) -> bool {
    match step {
        TypedStep::Dot { args, note, .. } => is_open_dot(args, note),
        TypedStep::Arrow { args, .. } => !args.is_empty(),
        _ => true,
    }
}

/// Whether a phrase or a call may stand inside one of them.
fn any_is_open(steps: &[TypedStep]) -> bool {
    for step in steps {
        if is_open(step) {
            return true;
        }
    }
    false
}

/// How many bytes an expression with these steps takes.
fn bytes_of_steps(first: &TypedExpr, steps: &[TypedStep]) -> u32 {
    if !any_is_open(steps) {
        return CLOSED;
    }
    match first {
        TypedExpr::Path(_) => OF_MODEL,
        _ => OPEN,
    }
}

/// How many bytes a call takes, on an implicit source or without a context.
fn bytes_of_call(note: &Note) -> u32 {
    if note.source.is_some() { 2000 } else { 1400 }
}

/// How many bytes of the stack an expression takes with what may stand between it and a phrase or a call inside it, by
/// what was measured of the program as LLVM builds it.
pub fn bytes_of(node: &TypedExpr) -> u32 {
    match node {
        TypedExpr::Call { note, .. } => bytes_of_call(note),
        TypedExpr::Coll { .. } => 1070,
        TypedExpr::If { .. } => 890,
        TypedExpr::Object { .. } => 960,
        TypedExpr::New { .. } => 1190,
        TypedExpr::Map(_) => 2100,
        TypedExpr::Chain { .. } => 1190,
        TypedExpr::Prefix { .. } => 710,
        TypedExpr::Post { first, steps, .. } => bytes_of_steps(first, steps.as_slice()),
        _ => 220,
    }
}

/// What is left of so many bytes behind a phrase that takes some of them, if there are enough.
pub fn left_behind(left: u32, bytes: u32) -> Option<u32>
    ensures { IfSome result (λ less. less < left) }
{
    let less = left.checked_sub(1)?;
    less.checked_sub(bytes)
}
