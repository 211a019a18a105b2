//! The steps that an evaluation takes on its state.

ghost use Rattle.std.specs.Prelude.{◌≡◌, Err, OnOk, OnErr};
ghost use Rattle.std.specs.Option.{option_copied};
ghost use Rattle.qvt_run_rules.specs.Cost.{charge, count, spend_of};
ghost use Rattle.qvt_run_rules.specs.Locals.{fixed, name_in, read};
ghost use Rattle.qvt_run_rules.specs.State.{found};
ghost use Rattle.qvt_exec_state.specs.Runs.{Runs, seen, with_local};

use crate::locals::local_named;
use crate::names::name_in;
use crate::state::RunState;
use qvt_base::copied::Copied;
use qvt_base::list_fault::ListFault;
use qvt_base::numbers::Place;
use qvt_base::text::Text;
use qvt_run_rules::exit::{End, Exit, Halt};
use qvt_run_rules::fault::RunFault;
use qvt_run_rules::local::Local;
use qvt_value::value::Value;
use std::alloc::Global;

/// A value meets what is not defined for it.
pub fn misfit<A>(place: Place) -> Result<A, Halt>
    ensures { result ≡ Err (Halt.Exits (Exit.Ends (End.Fault RunFault.TypeFault place))) }
{
    Err(Halt::Exits(Exit::Ends(End::Fault(RunFault::TypeFault, place))))
}

/// What is there, else a misfit.
pub fn found(value: Option<Value>, place: Place, state: &RunState<'_>) -> Result<Value, Halt>
    ensures { Runs (found value place (seen state.now)) result state.now }
{
    match value {
        Some(value) => Ok(value),
        None => misfit(place),
    }
}

/// So many units more, without an end.
#[tactic(auto, unfolding(qvt_run_rules::specs::Cost::count))]
fn count(units: u64, state: &mut RunState<'_>) -> Result<(), Halt>
    ensures { Runs (count units (seen state.old)) result state.new }
{
    state.cost.add(units)?;
    Ok(())
}

/// So many units more, unless the cost would pass the fuel.
#[tactic(auto, unfolding(qvt_run_rules::specs::Cost::charge))]
fn charge(fuel: u64, units: u64, state: &mut RunState<'_>) -> Result<(), Halt>
    ensures { Runs (charge fuel units (seen state.old)) result state.new }
{
    if state.cost.passes(units, fuel) {
        return Err(Halt::Exits(Exit::Ends(End::OutOfFuel)));
    }
    state.cost.add(units)?;
    Ok(())
}

/// So many units more, within the limit if there is one.
#[tactic(auto, unfolding(qvt_run_rules::specs::Cost::spend_of))]
pub fn spend(limit: Option<u64>, units: u64, state: &mut RunState<'_>) -> Result<(), Halt>
    ensures { Runs (spend_of limit units (seen state.old)) result state.new }
{
    match limit {
        None => count(units, state),
        Some(fuel) => charge(fuel, units, state),
    }
}

/// One unit more.
pub fn tick(limit: Option<u64>, state: &mut RunState<'_>) -> Result<(), Halt>
    ensures { Runs (spend_of limit 1 (seen state.old)) result state.new }
{
    spend(limit, 1, state)
}

/// The value of the first variable of that name, else a misfit.
#[tactic(auto, unfolding(qvt_run_rules::specs::Locals::read))]
pub fn read(alloc: Global, state: &RunState<'_>, name: &str, place: Place) -> Result<Value, Halt>
    ensures { Runs (read name.now place (seen state.now)) result state.now }
{
    match local_named(state.locals.as_slice(), name) {
        Some(local) => Ok(local.value.copy(alloc)?),
        None => misfit(place),
    }
}

fn push(state: &mut RunState<'_>, name: Text, value: Value) -> Result<(), ListFault>
    ensures ok { OnOk result (seen state.new ≡ with_local (fixed name value) (seen state.old)) }
    ensures err { OnErr result (seen state.new ≡ seen state.old) }
{
    state.locals.push(Local {
        name,
        asked: None,
        value,
    })
}

/// Declares a variable to which nothing is assigned. A refused call changes nothing.
pub fn bind_named(
    alloc: Global,
    state: &mut RunState<'_>,
    name: &Text,
    value: Value,
) -> Result<(), ListFault>
    ensures ok { OnOk result (seen state.new ≡ with_local (fixed name.now value) (seen state.old)) }
    ensures err { OnErr result (seen state.new ≡ seen state.old) }
{
    let name = name.copy(alloc)?;
    push(state, name, value)
}

/// The same of an iterator or a filter, which may have no name.
pub fn bind(
    alloc: Global,
    state: &mut RunState<'_>,
    name: Option<&Text>,
    value: Value,
) -> Result<(), ListFault>
    ensures ok { OnOk result (seen state.new ≡ with_local (fixed (name_in state.old.locals (option_copied name.entry)) value) (seen state.old)) }
    ensures err { OnErr result (seen state.new ≡ seen state.old) }
{
    let name = name_in(alloc, state.locals.as_slice(), name)?;
    push(state, name, value)
}
