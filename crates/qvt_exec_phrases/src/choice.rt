//! The call of the unit that is chosen for an object.

ghost use Rattle.qvt_run_rules.specs.Calls as rule;
ghost use Rattle.qvt_program_units.specs.Readings as by;
ghost use Rattle.qvt_program_units.specs.Program.{program_view};
ghost use Rattle.qvt_exec_state.specs.Runs.{Runs, seen};
ghost use Rattle.qvt_exec_phrases.specs.Choice.{callee_by, item_by};

use crate::units::{ReadyUnits, UnitCalls};
use crate::values::object_of;
use qvt_base::numbers::{Oid, Place};
use qvt_exec_state::state::RunState;
use qvt_exec_state::steps::misfit;
use qvt_program_units::callees::chosen_for;
use qvt_program_units::program::Program;
use qvt_run_data::callee::Callee;
use qvt_run_data::exit::Halt;
use qvt_types_data::note::Reading;
use qvt_value::value::{Value, Values};
use std::alloc::Global;

/// How a call finds its unit: among those of its reading, by a `map`, or by an `xmap` where `strict` is
/// true, at its place.
#[derive(Clone, Copy)]
pub(crate) struct Choosing<'a> {
    pub(crate) alloc: Global,
    pub(crate) program: &'a Program,
    pub(crate) reading: &'a Reading,
    pub(crate) strict: bool,
    pub(crate) place: Place,
}

/// What a call with this reading calls for an object, by its class.
pub fn choose(
    alloc: Global,
    program: &Program,
    reading: &Reading,
    strict: bool,
    place: Place,
    object: Oid,
    state: &RunState<'_>,
) -> Result<Callee, Halt>
    ensures { Runs (by.choose (program_view program.now) reading.now strict place object (seen state.now)) result state.now }
{
    let store = state.store.as_store();
    match chosen_for(alloc, program, reading, strict, object, store)? {
        Some(callee) => Ok(callee),
        None => misfit(place),
    }
}

/// The call of the unit that is chosen for an object.
pub(crate) fn call_on<C: UnitCalls>(
    how: &Choosing<'_>,
    units: &ReadyUnits<C>,
    args: Values,
    object: Oid,
    state: &mut RunState<'_>,
) -> Result<Value, Halt>
    ensures { Runs (rule.call_on (C.means units.now).calls (callee_by how.now) args how.now.place object (seen state.old)) result state.new }
{
    let Choosing {
        alloc,
        program,
        reading,
        strict,
        place,
    } = *how;
    let callee = choose(alloc, program, reading, strict, place, object, state)?;
    units.call(callee, args, place, state)
}

/// The same for an item of a collection, which has to be an object.
pub(crate) fn call_on_item<C: UnitCalls>(
    how: &Choosing<'_>,
    units: &ReadyUnits<C>,
    args: Values,
    item: &Value,
    state: &mut RunState<'_>,
) -> Result<Value, Halt>
    ensures { Runs (item_by (C.means units.now).calls how.now args item.now (seen state.old)) result state.new }
{
    let object = object_of(how.place, item, state)?;
    call_on(how, units, args, object, state)
}
