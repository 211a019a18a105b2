//! What is called, by the program that the phrases are of.

ghost use Rattle.std.specs.Prelude.{◌≡◌};
ghost use Rattle.qvt_exec_resolves.specs.Program as of_program;
ghost use Rattle.qvt_exec_phrases.specs.Readings as by;
ghost use Rattle.qvt_exec_phrases.specs.Numbers as numbers;
ghost use Rattle.qvt_exec_state.specs.Runs.{Runs, seen};
ghost use Rattle.qvt_exec_phrases.specs.Choice.{each_by, mapped_by};

use qvt_base::numbers::{ClassNo, Oid, Place};
use qvt_exec_phrases::callees::free_callee;
use qvt_exec_phrases::choice::choose;
use qvt_exec_phrases::each::{each_called, map_each};
use qvt_exec_phrases::engine::Engine;
use qvt_exec_phrases::nested::{Nested, program};
use qvt_exec_phrases::numbers::constructor_of;
use qvt_exec_phrases::units::ReadyUnits;
use qvt_exec_state::state::RunState;
use qvt_run_data::callee::Callee;
use qvt_run_data::exit::Halt;
use qvt_types_data::note::Reading;
use qvt_value::value::{Value, Values};

/// What a call with this reading calls for an object, by its class.
#[inline(never)]
pub(crate) fn chosen<C: Nested>(
    x: &Engine<'_>,
    units: &ReadyUnits<C>,
    reading: &Reading,
    strict: bool,
    place: Place,
    object: Oid,
    state: &RunState<'_>,
) -> Result<Callee, Halt>
    ensures { Runs (by.choose (C.means units.now).program reading.now strict place object (seen state.now)) result state.now }
{
    choose(
        x.alloc,
        program(units),
        reading,
        strict,
        place,
        object,
        state,
    )
}

/// What a call with this reading calls without a context.
#[inline(never)]
pub(crate) fn without_context<C: Nested>(
    units: &ReadyUnits<C>,
    reading: &Reading,
    strict: bool,
) -> Option<Callee>
    ensures { result ≡ of_program.free_callee (C.means units.now).program reading.now strict }
{
    free_callee(program(units), reading, strict)
}

/// The constructor of the class with so many parameters.
#[inline(never)]
pub(crate) fn constructor<C: Nested>(
    units: &ReadyUnits<C>,
    class: ClassNo,
    count: usize,
) -> Option<u32>
    ensures { result ≡ numbers.constructor_of class.0 count (C.means units.now).program.heads.units }
{
    constructor_of(program(units), class, count)
}

/// The calls of a helper or a query for the items of a collection, with these arguments.
pub(crate) fn called_for_items<C: Nested>(
    x: &Engine<'_>,
    units: &ReadyUnits<C>,
    reading: &Reading,
    strict: bool,
    place: Place,
    given: Values,
    value: Value,
    state: &mut RunState<'_>,
) -> Result<Value, Halt>
    ensures { Runs (each_by (C.means units.now).calls (by.choose (C.means units.now).program reading.now strict place) given place value (seen state.old)) result state.new }
{
    each_called(
        x.alloc,
        program(units),
        units,
        reading,
        strict,
        place,
        given,
        value,
        state,
    )
}

/// The calls of a mapping for the objects of a value, with these arguments.
pub(crate) fn mapped_for_objects<C: Nested>(
    x: &Engine<'_>,
    units: &ReadyUnits<C>,
    reading: &Reading,
    strict: bool,
    place: Place,
    given: Values,
    value: Value,
    state: &mut RunState<'_>,
) -> Result<Value, Halt>
    ensures { Runs (mapped_by (C.means units.now).calls (by.choose (C.means units.now).program reading.now strict place) given place value (seen state.old)) result state.new }
{
    map_each(
        x.alloc,
        program(units),
        units,
        reading,
        strict,
        place,
        given,
        value,
        state,
    )
}
