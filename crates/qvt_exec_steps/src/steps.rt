//! Steps, one after another.

ghost use Rattle.std.specs.Prelude.{◌≡◌, drop, map};
ghost use Rattle.qvt_types_nodes.specs.View.{typed_expr_view, typed_exprs_of};
ghost use Rattle.qvt_run_rules.specs.Expressions as rule;
ghost use Rattle.qvt_exec_types.specs.Nodes as nodes;
ghost use Rattle.qvt_exec_types.specs.Readings as by;
ghost use Rattle.qvt_exec_types.specs.Post.{post_of, type_at};
ghost use Rattle.qvt_exec_leaves.specs.Runs.{Runs, seen};
ghost use Rattle.qvt_exec_invocations.specs.Means.{exprs_of, map_step_of, setting_of, step_of, steps_of};

use crate::arrows::arrow;
use crate::operations::operation_step;
use crate::sources::arrow_source;
use qvt_base::numbers::Place;
use qvt_base::text::Text;
use qvt_exec_invocations::calls::{Call, map_step, unit_step};
use qvt_exec_invocations::engine::Engine;
use qvt_exec_invocations::nested::{Nested, program};
use qvt_exec_invocations::resolves::resolve_step;
use qvt_exec_invocations::units::ReadyUnits;
use qvt_exec_leaves::state::RunState;
use qvt_exec_leaves::steps::property_by;
use qvt_exec_loops::steps::misfit;
use qvt_exec_types::before::Before;
use qvt_run_data::exit::Halt;
use qvt_types_data::note::{Note, Reading};
use qvt_types_data::ty::Ty;
use qvt_types_nodes::tree::{TypedExpr, TypedMapCall, TypedStep};
use qvt_value::value::Value;

/// A step with arguments behind a dot: an operation, or a helper or a query.
#[inline(always)]
fn dot_by<C: Nested>(
    x: &Engine<'_>,
    units: &ReadyUnits<C>,
    args: &[TypedExpr],
    name: &Text,
    note: &Note,
    place: Place,
    value: Value,
    state: &mut RunState<'_>,
) -> Result<Value, Halt>
    ensures { Runs (by.dot_by (setting_of (x.now, C.means units.now)) (C.means units.now).calls name.now note.now.reading note.now.collect (exprs_of (x.now, C.means units.now) args.now) (nodes.class_argument (typed_exprs_of (map typed_expr_view args.now))) place value (seen state.old)) result state.new }
{
    match &note.reading {
        Reading::Operation(_) => {
            operation_step(x, units, args, name, note.collect, place, value, state)
        }
        Reading::Units(_) => unit_step(x, units, args, note, place, value, state),
        _ => misfit(place),
    }
}

/// A mapping over all objects of its source, or on one.
#[inline(always)]
#[tactic(auto, unfolding(qvt_exec_phrases::specs::Means::map_step_of, qvt_exec_phrases::specs::Means::exprs_of, qvt_meaning::specs::Phrases::map_step))]
fn mapped<C: Nested>(
    x: &Engine<'_>,
    units: &ReadyUnits<C>,
    node: &TypedMapCall,
    all: bool,
    value: Value,
    state: &mut RunState<'_>,
) -> Result<Value, Halt>
    ensures { Runs (map_step_of (x.now, C.means units.now) all node.now value (seen state.old)) result state.new }
{
    let how = Call {
        reading: &node.note.reading,
        strict: node.strict,
        place: node.place,
    };
    let args = node.args.as_slice();
    map_step(x, units, args, all || node.note.collect, how, value, state)
}

/// A step, behind the type before it.
#[inline(never)]
#[tactic(auto, unfolding(qvt_exec_phrases::specs::Means::step_of, qvt_exec_phrases::specs::Means::exprs_of, qvt_exec_phrases::specs::Means::head_of, qvt_exec_phrases::specs::Means::map_step_of, qvt_meaning::specs::Phrases::step, qvt_meaning::specs::Phrases::dot_step))]
fn step<C: Nested>(
    x: &Engine<'_>,
    units: &ReadyUnits<C>,
    node: &TypedStep,
    before: &mut Before<'_>,
    index: usize,
    value: Value,
    state: &mut RunState<'_>,
) -> Result<Value, Halt>
    ensures same { post_of before.new ≡ post_of before.old }
    ensures runs { Runs (step_of (x.now, C.means units.now) (type_at (post_of before.old) index) node.now value (seen state.old)) result state.new }
{
    match node {
        TypedStep::Dot {
            name,
            args,
            place,
            note,
        } => match args {
            None => property_by(x.alloc, x.limit, note, *place, value, state),
            Some(args) => dot_by(x, units, args.as_slice(), name, note, *place, value, state),
        },
        TypedStep::Arrow {
            name,
            head,
            args,
            place,
            note,
        } => {
            let source = arrow_source(x.alloc, before, index, note.wrap, value)?;
            arrow(x, units, name, head, args.as_slice(), *place, source, state)
        }
        TypedStep::DotMap(call) => mapped(x, units, call, false, value, state),
        TypedStep::ArrowMap(call) => mapped(x, units, call, true, value, state),
        TypedStep::DotResolve(call) => resolve_step(x, units, call, value, state),
        TypedStep::ArrowResolve(call) => resolve_step(x, units, call, value, state),
    }
}

/// The steps from a place on, by the type of what stands before the first of all.
#[inline(always)]
#[tactic(auto, using(crate::proofs::Behind::steps_done))]
pub fn steps_from<C: Nested>(
    x: &Engine<'_>,
    units: &ReadyUnits<C>,
    all: &[TypedStep],
    first: &Option<Ty>,
    from: usize,
    value: Value,
    state: &mut RunState<'_>,
) -> Result<Value, Halt>
    ensures { Runs (rule.along value (drop from (steps_of (x.now, C.means units.now) first.now all.now)) (seen state.old)) result state.new }
{
    let mut before = Before::new(program(units), first, all);
    let mut value = value;
    for index in from..all.len() {
        value = step(x, units, &all[index], &mut before, index, value, state)?;
    }
    Ok(value)
}
