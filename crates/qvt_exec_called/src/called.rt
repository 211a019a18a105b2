//! The call of a unit.

ghost use Rattle.qvt_run_data.specs.declared.callee.Callee.TheVariants.{HelperCall, ConstructorCall, MappingCall};
ghost use Rattle.qvt_exec_state.specs.Runs.{Runs, seen};
ghost use Rattle.qvt_exec_called.specs.Routines.{called_of};

use crate::calls::mapping;
use crate::routine_at::routine_at;
use crate::routines::{constructor, helper};
use qvt_base::numbers::{Oid, Place};
use qvt_exec_candidates::mapping::mapping_at;
use qvt_exec_candidates::run::Run;
use qvt_exec_phrases::nested::Nested;
use qvt_exec_phrases::numbers::no_unit;
use qvt_exec_phrases::units::ReadyUnits;
use qvt_exec_state::state::RunState;
use qvt_exec_state::steps::misfit;
use qvt_run_data::callee::{Callee, Way};
use qvt_run_data::exit::Halt;
use qvt_value::value::{Value, Values};

#[inline(never)]
fn helper_at<C: Nested>(
    run: &Run,
    units: &ReadyUnits<C>,
    number: u32,
    context: Option<Oid>,
    args: Values,
    place: Place,
    state: &mut RunState<'_>,
) -> Result<Value, Halt>
    ensures { Runs (called_of (run.now, C.means units.now) (HelperCall number context) args place (seen state.old)) result state.new }
{
    let none = no_unit(run.alloc);
    match routine_at(units, &none, number) {
        None => misfit(place),
        Some(routine) => helper(run, units, &routine, context, args, place, state),
    }
}

#[inline(never)]
fn constructor_at<C: Nested>(
    run: &Run,
    units: &ReadyUnits<C>,
    number: u32,
    class: u32,
    extent: u32,
    args: Values,
    place: Place,
    state: &mut RunState<'_>,
) -> Result<Value, Halt>
    ensures { Runs (called_of (run.now, C.means units.now) (ConstructorCall number class extent) args place (seen state.old)) result state.new }
{
    let none = no_unit(run.alloc);
    match routine_at(units, &none, number) {
        None => misfit(place),
        Some(routine) => constructor(run, units, &routine, class, extent, args, place, state),
    }
}

#[inline(never)]
fn mapping_by_number<C: Nested>(
    run: &Run,
    units: &ReadyUnits<C>,
    number: u32,
    way: Way,
    context: Option<Oid>,
    args: &Values,
    place: Place,
    state: &mut RunState<'_>,
) -> Result<Value, Halt>
    ensures { Runs (called_of (run.now, C.means units.now) (MappingCall number way context) args.now place (seen state.old)) result state.new }
{
    let none = no_unit(run.alloc);
    match mapping_at(units, &none, number) {
        None => misfit(place),
        Some(found) => mapping(run, units, &found, way, context, args, place, state),
    }
}

/// The call of a unit, with these arguments.
fn by_callee<C: Nested>(
    run: &Run,
    units: &ReadyUnits<C>,
    callee: Callee,
    args: Values,
    place: Place,
    state: &mut RunState<'_>,
) -> Result<Value, Halt>
    ensures { Runs (called_of (run.now, C.means units.now) callee args place (seen state.old)) result state.new }
{
    match callee {
        Callee::HelperCall(number, context) => {
            helper_at(run, units, number, context, args, place, state)
        }
        Callee::ConstructorCall(number, class, extent) => {
            constructor_at(run, units, number, class, extent, args, place, state)
        }
        Callee::MappingCall(number, way, context) => {
            mapping_by_number(run, units, number, way, context, &args, place, state)
        }
    }
}

/// The same over units that are ready for it.
pub fn called<C: Nested + Drop>(
    run: &Run,
    units: C,
    callee: Callee,
    args: Values,
    place: Place,
    state: &mut RunState<'_>,
) -> Result<Value, Halt>
    requires { C.ready units }
    ensures { Runs (called_of (run.now, C.means units) callee args place (seen state.old)) result state.new }
{
    let units = ReadyUnits { units };
    by_callee(run, &units, callee, args, place, state)
}
