//! Calls of units (QVT 1.3, 8.2.2.9, 8.2.1.13, 8.2.1.15 and 8.2.2.23).

ghost use Rattle.std.specs.Prelude.{None};
ghost use Rattle.qvt_run_rules.specs.Calls as call;
ghost use Rattle.qvt_run_rules.specs.Cost.{spend_of};
ghost use Rattle.qvt_exec_phrases.specs.Readings as by;
ghost use Rattle.qvt_exec_state.specs.Runs.{Runs, seen};
ghost use Rattle.qvt_exec_phrases.specs.Means.{barred_in, exprs_of, program_of, setting_of, valid_of};

use crate::callees::{called_for_items, chosen, constructor, mapped_for_objects, without_context};
use qvt_base::numbers::{ClassNo, Place};
use qvt_base::seq::Seq;
use qvt_exec_moves::objects::new_object;
use qvt_exec_moves::values::{object_of, present, valid};
use qvt_exec_phrases::engine::Engine;
use qvt_exec_phrases::nested::{Nested, expr};
use qvt_exec_phrases::units::ReadyUnits;
use qvt_exec_state::state::RunState;
use qvt_exec_state::steps::{misfit, read, tick};
use qvt_run_data::callee::Callee;
use qvt_run_data::exit::Halt;
use qvt_types_data::note::{Note, Reading};
use qvt_types_nodes::tree::TypedExpr;
use qvt_value::value::{Value, Values};

/// How a unit is called: by what typing read its name as, by an `xmap` or not, at its place.
#[derive(Clone, Copy)]
pub struct Call<'a> {
    pub reading: &'a Reading,
    pub strict: bool,
    pub place: Place,
}

/// An argument of a call, which is not invalid.
fn argument<C: Nested>(
    x: &Engine<'_>,
    units: &ReadyUnits<C>,
    node: &TypedExpr,
    state: &mut RunState<'_>,
) -> Result<Value, Halt>
    ensures { Runs (valid_of (x.now, C.means units.now) node.now (seen state.old)) result state.new }
{
    let value = expr(x, units, node, state)?;
    valid(value, state)
}

/// The arguments of a call, of which none is invalid.
#[inline(never)]
#[tactic(auto, unfolding(qvt_exec_phrases::specs::Means::exprs_of, qvt_exec_phrases::specs::Means::expr_of, qvt_meaning::specs::Phrases::exprs))]
fn arguments<C: Nested>(
    x: &Engine<'_>,
    units: &ReadyUnits<C>,
    nodes: &[TypedExpr],
    state: &mut RunState<'_>,
) -> Result<Values, Halt>
    ensures { Runs (call.arguments (exprs_of (x.now, C.means units.now) nodes.now) (seen state.old)) result state.new }
{
    let mut done = Seq::new(x.alloc);
    for node in nodes {
        let value = argument(x, units, node, state)?;
        done.push(value)?;
    }
    Ok(done)
}

/// A call on a context: null is told before the arguments.
#[inline(never)]
fn on_context<C: Nested>(
    x: &Engine<'_>,
    units: &ReadyUnits<C>,
    args: &[TypedExpr],
    how: Call<'_>,
    value: &Value,
    state: &mut RunState<'_>,
) -> Result<Value, Halt>
    ensures { Runs (call.on_context (C.means units.now).calls (by.choose (program_of (x.now, C.means units.now)) how.entry.reading.now how.entry.strict how.entry.place) (exprs_of (x.now, C.means units.now) args.now) how.entry.place value.now (seen state.old)) result state.new }
{
    let object = object_of(how.place, value, state)?;
    let given = arguments(x, units, args, state)?;
    let callee = chosen(x, units, how.reading, how.strict, how.place, object, state)?;
    units.call(callee, given, how.place, state)
}

/// A call of a unit without a context.
#[inline(never)]
#[tactic(auto, unfolding(qvt_run_rules::specs::Calls::call_free))]
fn call_free<C: Nested>(
    x: &Engine<'_>,
    units: &ReadyUnits<C>,
    args: &[TypedExpr],
    callee: Option<Callee>,
    place: Place,
    state: &mut RunState<'_>,
) -> Result<Value, Halt>
    ensures { Runs (by.call_free (setting_of (x.now, C.means units.now)) (C.means units.now).calls callee (exprs_of (x.now, C.means units.now) args.now) place (seen state.old)) result state.new }
{
    match callee {
        None => misfit(place),
        Some(callee) => {
            tick(x.limit, state)?;
            let given = arguments(x, units, args, state)?;
            units.call(callee, given, place, state)
        }
    }
}

/// A call on an implicit source.
#[inline(never)]
#[tactic(auto, unfolding(qvt_run_rules::specs::Calls::call_implicit))]
fn call_implicit<C: Nested>(
    x: &Engine<'_>,
    units: &ReadyUnits<C>,
    args: &[TypedExpr],
    how: Call<'_>,
    source: &str,
    state: &mut RunState<'_>,
) -> Result<Value, Halt>
    ensures { Runs (call.call_implicit (spend_of x.now.limit) (C.means units.now).calls (by.choose (program_of (x.now, C.means units.now)) how.entry.reading.now how.entry.strict how.entry.place) source.now (exprs_of (x.now, C.means units.now) args.now) how.entry.place (seen state.old)) result state.new }
{
    tick(x.limit, state)?;
    let value = read(x.alloc, state, source, how.place)?;
    on_context(x, units, args, how, &value, state)
}

/// A call without a step: on the implicit source, or without a context.
#[inline(never)]
fn alone<C: Nested>(
    x: &Engine<'_>,
    units: &ReadyUnits<C>,
    args: &[TypedExpr],
    note: &Note,
    strict: bool,
    place: Place,
    state: &mut RunState<'_>,
) -> Result<Value, Halt>
    ensures { Runs (by.call_alone (setting_of (x.now, C.means units.now)) (C.means units.now).calls note.now.reading note.now.source strict (exprs_of (x.now, C.means units.now) args.now) place (seen state.old)) result state.new }
{
    match &note.source {
        Some(source) => {
            let how = Call {
                reading: &note.reading,
                strict,
                place,
            };
            call_implicit(x, units, args, how, source.as_str(), state)
        }
        None => {
            let callee = without_context(units, &note.reading, strict);
            call_free(x, units, args, callee, place, state)
        }
    }
}

/// A call without a step, on its implicit source if it has one. A plain expression has none.
#[inline(never)]
pub fn call_alone<C: Nested>(
    x: &Engine<'_>,
    units: &ReadyUnits<C>,
    args: &[TypedExpr],
    note: &Note,
    strict: bool,
    place: &Place,
    state: &mut RunState<'_>,
) -> Result<Value, Halt>
    ensures { Runs (barred_in x.now.is_plain place.now (by.call_alone (setting_of (x.now, C.means units.now)) (C.means units.now).calls note.now.reading note.now.source strict (exprs_of (x.now, C.means units.now) args.now) place.now) (seen state.old)) result state.new }
{
    if x.is_plain {
        return misfit(*place);
    }
    alone(x, units, args, note, strict, *place, state)
}

/// A call behind a dot, on one object.
#[inline(never)]
#[tactic(auto, unfolding(qvt_run_rules::specs::Calls::call_step))]
fn call_step<C: Nested>(
    x: &Engine<'_>,
    units: &ReadyUnits<C>,
    args: &[TypedExpr],
    how: Call<'_>,
    value: Value,
    state: &mut RunState<'_>,
) -> Result<Value, Halt>
    ensures { Runs (call.call_step (spend_of x.now.limit) (C.means units.now).calls (by.choose (program_of (x.now, C.means units.now)) how.entry.reading.now how.entry.strict how.entry.place) (exprs_of (x.now, C.means units.now) args.now) how.entry.place value (seen state.old)) result state.new }
{
    let value = valid(value, state)?;
    tick(x.limit, state)?;
    on_context(x, units, args, how, &value, state)
}

/// A helper or a query for each item of a collection.
#[inline(never)]
#[tactic(auto, unfolding(qvt_run_rules::specs::Calls::call_each))]
fn call_each<C: Nested>(
    x: &Engine<'_>,
    units: &ReadyUnits<C>,
    args: &[TypedExpr],
    how: Call<'_>,
    value: Value,
    state: &mut RunState<'_>,
) -> Result<Value, Halt>
    ensures { Runs (call.call_each (spend_of x.now.limit) (C.means units.now).calls (by.choose (program_of (x.now, C.means units.now)) how.entry.reading.now how.entry.strict how.entry.place) (exprs_of (x.now, C.means units.now) args.now) how.entry.place value (seen state.old)) result state.new }
{
    let value = valid(value, state)?;
    tick(x.limit, state)?;
    let value = present(how.place, value, state)?;
    let given = arguments(x, units, args, state)?;
    called_for_items(
        x,
        units,
        how.reading,
        how.strict,
        how.place,
        given,
        value,
        state,
    )
}

/// A helper or a query behind a dot: on one object, or for each item of a collection where the note says
/// so. A plain expression has none.
#[inline(always)]
pub fn unit_step<C: Nested>(
    x: &Engine<'_>,
    units: &ReadyUnits<C>,
    args: &[TypedExpr],
    note: &Note,
    place: Place,
    value: Value,
    state: &mut RunState<'_>,
) -> Result<Value, Halt>
    ensures { Runs (barred_in x.now.is_plain place (by.unit_step (setting_of (x.now, C.means units.now)) (C.means units.now).calls note.now.reading note.now.collect (exprs_of (x.now, C.means units.now) args.now) place value) (seen state.old)) result state.new }
{
    if x.is_plain {
        return misfit(place);
    }
    let how = Call {
        reading: &note.reading,
        strict: false,
        place,
    };
    if note.collect {
        call_each(x, units, args, how, value, state)
    } else {
        call_step(x, units, args, how, value, state)
    }
}

/// A mapping over a collection, or over a single value behind an arrow.
#[inline(never)]
#[tactic(auto, unfolding(qvt_run_rules::specs::Calls::map_all))]
fn map_all<C: Nested>(
    x: &Engine<'_>,
    units: &ReadyUnits<C>,
    args: &[TypedExpr],
    how: Call<'_>,
    value: Value,
    state: &mut RunState<'_>,
) -> Result<Value, Halt>
    ensures { Runs (call.map_all (spend_of x.now.limit) (C.means units.now).calls (by.choose (program_of (x.now, C.means units.now)) how.entry.reading.now how.entry.strict how.entry.place) (exprs_of (x.now, C.means units.now) args.now) how.entry.place value (seen state.old)) result state.new }
{
    let value = valid(value, state)?;
    tick(x.limit, state)?;
    let given = arguments(x, units, args, state)?;
    mapped_for_objects(
        x,
        units,
        how.reading,
        how.strict,
        how.place,
        given,
        value,
        state,
    )
}

/// A mapping behind a dot or an arrow: on all objects of the value, or on the one that it is. A plain
/// expression has none.
#[inline(always)]
pub fn map_step<C: Nested>(
    x: &Engine<'_>,
    units: &ReadyUnits<C>,
    args: &[TypedExpr],
    all: bool,
    how: Call<'_>,
    value: Value,
    state: &mut RunState<'_>,
) -> Result<Value, Halt>
    ensures { Runs (barred_in x.now.is_plain how.entry.place (by.map_step (setting_of (x.now, C.means units.now)) (C.means units.now).calls how.entry.reading.now all how.entry.strict (exprs_of (x.now, C.means units.now) args.now) how.entry.place value) (seen state.old)) result state.new }
{
    if x.is_plain {
        return misfit(how.place);
    }
    if all {
        map_all(x, units, args, how, value, state)
    } else {
        call_step(x, units, args, how, value, state)
    }
}

/// An object that a constructor makes.
#[tactic(auto, unfolding(qvt_run_rules::specs::Calls::new_by))]
fn made_by<C: Nested>(
    x: &Engine<'_>,
    units: &ReadyUnits<C>,
    args: &[TypedExpr],
    number: u32,
    class: ClassNo,
    extent: u32,
    place: Place,
    state: &mut RunState<'_>,
) -> Result<Value, Halt>
    ensures { Runs (call.new_by (spend_of x.now.limit) (C.means units.now).calls number class.0 extent (exprs_of (x.now, C.means units.now) args.now) place (seen state.old)) result state.new }
{
    let callee = Callee::ConstructorCall(number, class.0, extent);
    tick(x.limit, state)?;
    let given = arguments(x, units, args, state)?;
    units.call(callee, given, place, state)
}

/// An object alone.
#[tactic(auto, unfolding(qvt_run_rules::specs::Calls::new_alone))]
fn made_alone<C: Nested>(
    x: &Engine<'_>,
    units: &ReadyUnits<C>,
    class: ClassNo,
    extent: u32,
    place: Place,
    state: &mut RunState<'_>,
) -> Result<Value, Halt>
    ensures { Runs (call.new_alone (spend_of x.now.limit) (C.means units.now).calls class.0 extent place (seen state.old)) result state.new }
{
    tick(x.limit, state)?;
    let object = new_object(class, extent, place, state)?;
    Ok(Value::Obj(object))
}

/// An object of a class without a constructor for the arguments, which there may not be.
fn made_without<C: Nested>(
    x: &Engine<'_>,
    units: &ReadyUnits<C>,
    args: &[TypedExpr],
    class: ClassNo,
    extent: u32,
    place: Place,
    state: &mut RunState<'_>,
) -> Result<Value, Halt>
    ensures { Runs (by.new_with (setting_of (x.now, C.means units.now)) (C.means units.now).calls class.0 extent None (exprs_of (x.now, C.means units.now) args.now) place (seen state.old)) result state.new }
{
    match args {
        [] => made_alone(x, units, class, extent, place, state),
        [_, ..] => misfit(place),
    }
}

/// An object that the constructor with this number makes, or an object alone.
fn new_with<C: Nested>(
    x: &Engine<'_>,
    units: &ReadyUnits<C>,
    args: &[TypedExpr],
    number: Option<u32>,
    class: ClassNo,
    extent: u32,
    place: Place,
    state: &mut RunState<'_>,
) -> Result<Value, Halt>
    ensures { Runs (by.new_with (setting_of (x.now, C.means units.now)) (C.means units.now).calls class.0 extent number (exprs_of (x.now, C.means units.now) args.now) place (seen state.old)) result state.new }
{
    match number {
        Some(number) => made_by(x, units, args, number, class, extent, place, state),
        None => made_without(x, units, args, class, extent, place, state),
    }
}

/// A `new` by what typing read it as.
fn made<C: Nested>(
    x: &Engine<'_>,
    units: &ReadyUnits<C>,
    args: &[TypedExpr],
    reading: &Reading,
    place: Place,
    state: &mut RunState<'_>,
) -> Result<Value, Halt>
    ensures { Runs (by.new_by (setting_of (x.now, C.means units.now)) (C.means units.now).calls reading.now (exprs_of (x.now, C.means units.now) args.now) place (seen state.old)) result state.new }
{
    match reading {
        Reading::Make(class, extent) => {
            let number = constructor(units, *class, args.len());
            new_with(x, units, args, number, *class, *extent, place, state)
        }
        _ => misfit(place),
    }
}

/// A `new`: an object that the constructor of the class with so many parameters makes, or an object alone.
/// A plain expression has none.
#[inline(never)]
pub fn new_by<C: Nested>(
    x: &Engine<'_>,
    units: &ReadyUnits<C>,
    args: &[TypedExpr],
    reading: &Reading,
    place: &Place,
    state: &mut RunState<'_>,
) -> Result<Value, Halt>
    ensures { Runs (barred_in x.now.is_plain place.now (by.new_by (setting_of (x.now, C.means units.now)) (C.means units.now).calls reading.now (exprs_of (x.now, C.means units.now) args.now) place.now) (seen state.old)) result state.new }
{
    if x.is_plain {
        return misfit(*place);
    }
    made(x, units, args, reading, *place, state)
}
