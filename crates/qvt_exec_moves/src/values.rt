//! What may not be invalid or null, and values of the types that are asked.

ghost use Rattle.std.specs.Prelude.{◌≡◌};
ghost use Rattle.std.specs.Option.{option_copied};
ghost use Rattle.qvt_run_rules.specs.Statements.{truth};
ghost use Rattle.qvt_run_rules.specs.Typed.{asked, has_asked, object_of, present, taken, valid};
ghost use Rattle.qvt_exec_state.specs.Runs.{Runs, seen};
ghost use Rattle.qvt_exec_moves.specs.Moves.{given_back};

use crate::faults::faulted;
use qvt_base::numbers::{Oid, Place};
use qvt_exec_reads::types::has_type;
use qvt_exec_state::state::RunState;
use qvt_exec_state::steps::misfit;
use qvt_exec_state::store::Store;
use qvt_ocl_lists::items::is_null;
use qvt_run_data::exit::{Exit, Halt};
use qvt_run_data::fault::RunFault;
use qvt_types_data::ty::Ty;
use qvt_value::value::{Reason, Value};

/// A value that may not be invalid.
pub fn valid(value: Value, state: &RunState<'_>) -> Result<Value, Halt>
    ensures { Runs (valid value (seen state.now)) result state.now }
{
    match &value {
        Value::Invalid(reason, place) => faulted(RunFault::InvalidValue(*reason), *place),
        _ => Ok(value),
    }
}

/// A source that may not be null.
pub fn present(place: Place, value: Value, state: &RunState<'_>) -> Result<Value, Halt>
    ensures { Runs (present place value (seen state.now)) result state.now }
{
    if is_null(&value) {
        return faulted(RunFault::InvalidValue(Reason::NullSource), place);
    }
    Ok(value)
}

/// An object that there has to be.
pub fn object_of(place: Place, value: &Value, state: &RunState<'_>) -> Result<Oid, Halt>
    ensures { Runs (object_of place value.now (seen state.now)) result state.now }
{
    match value {
        Value::Obj(object) => Ok(*object),
        Value::Null => faulted(RunFault::InvalidValue(Reason::NullSource), place),
        Value::Invalid(reason, cause) => faulted(RunFault::InvalidValue(*reason), *cause),
        _ => misfit(place),
    }
}

/// Whether a condition at this place is true.
pub fn truth(place: Place, value: &Value, state: &RunState<'_>) -> Result<bool, Halt>
    ensures { Runs (truth place value.now (seen state.now)) result state.now }
{
    match value {
        Value::Bool(truth) => Ok(*truth),
        Value::Null => faulted(RunFault::InvalidValue(Reason::NullValue), place),
        Value::Invalid(reason, cause) => faulted(RunFault::InvalidValue(*reason), *cause),
        _ => misfit(place),
    }
}

/// Whether the value is of the type that is asked, if one is.
pub(crate) fn has_asked(store: &Store, of: Option<&Ty>, value: &Value) -> bool
    ensures { result ≡ has_asked store.now (option_copied of.entry) value.now }
{
    match of {
        None => true,
        Some(of) => has_type(store, of, value),
    }
}

/// A value of the type that is asked, if one is.
pub fn asked(
    of: Option<&Ty>,
    place: Place,
    value: Value,
    state: &RunState<'_>,
) -> Result<Value, Halt>
    ensures { Runs (asked (option_copied of.entry) place value (seen state.now)) result state.now }
{
    if has_asked(state.store.as_store(), of, &value) {
        Ok(value)
    } else {
        misfit(place)
    }
}

/// A value that a phrase takes: not invalid, and of the type that is asked.
pub fn taken(
    of: Option<&Ty>,
    place: Place,
    value: Value,
    state: &RunState<'_>,
) -> Result<Value, Halt>
    ensures { Runs (taken (option_copied of.entry) place value (seen state.now)) result state.now }
{
    let value = valid(value, state)?;
    asked(of, place, value, state)
}

/// A `return` with a value of the type that the unit answers.
pub fn give_back(
    of: Option<&Ty>,
    place: Place,
    value: Value,
    state: &RunState<'_>,
) -> Result<(), Halt>
    ensures { Runs (given_back (option_copied of.entry) place value (seen state.now)) result state.now }
{
    let value = taken(of, place, value, state)?;
    Err(Halt::Exits(Exit::Returned(Some(value))))
}
