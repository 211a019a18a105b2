//! Operations whose sources are lent: those behind an arrow on a variable, or on a property of what a variable holds, whose
//! arguments leave all variables and the store as they are (OCL 2.4, 7.5.3 and 7.6).

ghost use Rattle.std.specs.Prelude.{◌≡◌, map, suc};
ghost use Rattle.std.specs.Option.{option_map};
ghost use Rattle.qvt_types_nodes.specs.View.{typed_expr_view, typed_step_view, typed_steps_of};
ghost use Rattle.qvt_exec_quiet.specs.Lent as lent;

use crate::operations::operation_alone;
use crate::quiet::are_quiet;
use qvt_base::numbers::{FeatureNo, Place};
use qvt_exec_state::names::{RESULT_NAME, SELF_NAME};
use qvt_ocl_words::op::Op;
use qvt_types_data::note::{Note, Reading};
use qvt_types_nodes::tree::{TypedExpr, TypedStep};

/// What an operation goes over.
#[derive(Clone, Copy)]
pub enum Source<'a> {
    /// A variable, with its place.
    Variable(&'a str, Place),
    /// A property of an implicit source, with the place of its name.
    Implicit(&'a str, FeatureNo, Place),
    /// A property of what a variable with its place holds, with the place of the dot.
    Slot(&'a str, Place, FeatureNo, Place),
}

/// The source; the operation, its arguments, whether a single value is wrapped, and the place of the step.
#[derive(Clone, Copy)]
pub struct Lent<'a> {
    pub source: Source<'a>,
    pub op: Op,
    pub args: &'a [TypedExpr],
    pub wrap: bool,
    pub at: Place,
}

/// How many steps stand before the arrow.
pub fn steps_before(source: &Source<'_>) -> usize
    ensures { result ≡ lent.steps_before (lent.source_view source.now) }
{
    match source {
        Source::Variable(_, _) => 0,
        Source::Implicit(_, _, _) => 0,
        Source::Slot(_, _, _, _) => 1,
    }
}

/// How many steps there are up to the arrow.
pub fn steps_up_to(source: &Source<'_>) -> usize
    ensures { result ≡ suc (lent.steps_before (lent.source_view source.now)) }
{
    match source {
        Source::Variable(_, _) => 1,
        Source::Implicit(_, _, _) => 1,
        Source::Slot(_, _, _, _) => 2,
    }
}

/// What an expression reads.
fn source_named(node: &TypedExpr) -> Option<Source<'_>>
    ensures { option_map lent.source_view result ≡ lent.source_named (typed_expr_view node.now) }
{
    match node {
        TypedExpr::SelfRef { place, .. } => Some(Source::Variable(SELF_NAME, *place)),
        TypedExpr::ResultRef { place, .. } => Some(Source::Variable(RESULT_NAME, *place)),
        TypedExpr::Path(path) => match &path.note.reading {
            Reading::Variable(name) => Some(Source::Variable(name.as_str(), path.place)),
            Reading::Feature(feature) => match &path.note.source {
                Some(source) => Some(Source::Implicit(source.as_str(), *feature, path.place)),
                None => None,
            },
            _ => None,
        },
        _ => None,
    }
}

/// A property of what a variable holds, with its note and the place of the dot.
fn slot_named<'a>(source: Source<'a>, dot: Place, note: &Note) -> Option<Source<'a>>
    ensures { option_map lent.source_view result ≡ lent.slot_named (lent.source_view source.entry) dot note.now }
{
    if note.collect {
        return None;
    }
    match source {
        Source::Variable(name, place) => match &note.reading {
            Reading::Feature(feature) => Some(Source::Slot(name, place, *feature, dot)),
            _ => None,
        },
        _ => None,
    }
}

/// The step on the source, if it is one of these.
fn lent_step<'a>(source: Source<'a>, step: &'a TypedStep) -> Option<Lent<'a>>
    ensures { option_map lent.lent_view result ≡ lent.lent_step (lent.source_view source.entry) (typed_step_view step.now) }
{
    match step {
        TypedStep::Arrow {
            name,
            args,
            place,
            note,
            ..
        } => {
            let args = args.as_slice();
            let op = operation_alone(name)?;
            if !are_quiet(args) {
                return None;
            }
            Some(Lent {
                source,
                op,
                args,
                wrap: note.wrap,
                at: *place,
            })
        }
        _ => None,
    }
}

/// The first of the steps on the source, if it is one of these.
fn lent_first<'a>(source: Source<'a>, steps: &'a [TypedStep]) -> Option<Lent<'a>>
    ensures { option_map lent.lent_view result ≡ lent.lent_first (lent.source_view source.entry) (typed_steps_of (map typed_step_view steps.now)) }
{
    match steps {
        [] => None,
        [step, ..] => lent_step(source, step),
    }
}

/// The same behind a first step that is a property.
fn lent_slot<'a>(source: Option<Source<'a>>, steps: &'a [TypedStep]) -> Option<Lent<'a>>
    ensures { option_map lent.lent_view result ≡ lent.lent_slot (option_map lent.source_view source.entry) (typed_steps_of (map typed_step_view steps.now)) }
{
    match source {
        None => None,
        Some(source) => lent_first(source, steps),
    }
}

/// The first of the steps on the source, or the second behind a property, if it is one of these.
fn lent_with<'a>(source: Source<'a>, steps: &'a [TypedStep]) -> Option<Lent<'a>>
    ensures { option_map lent.lent_view result ≡ lent.lent_with (lent.source_view source.entry) (typed_steps_of (map typed_step_view steps.now)) }
{
    match steps {
        [] => None,
        [step, rest @ ..] => match step {
            TypedStep::Dot {
                args,
                place,
                note,
                ..
            } => match args {
                None => lent_slot(slot_named(source, *place, note), rest),
                Some(_) => None,
            },
            _ => lent_step(source, step),
        },
    }
}

/// The operation among the steps on a first part whose source is lent, if there is one.
pub fn lent_of<'a>(first: &'a TypedExpr, steps: &'a [TypedStep]) -> Option<Lent<'a>>
    ensures { option_map lent.lent_view result ≡ lent.lent_of (typed_expr_view first.now) (typed_steps_of (map typed_step_view steps.now)) }
{
    match source_named(first) {
        None => None,
        Some(source) => lent_with(source, steps),
    }
}
