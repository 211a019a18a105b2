//! Values that a call takes.

ghost use Rattle.std.specs.Prelude.{◌≡◌, Err};
ghost use Rattle.std.specs.Option.{option_copied};
ghost use Rattle.qvt_run_rules.specs.Typed.{asked, has_asked, object_of};
ghost use Rattle.qvt_exec_state.specs.Runs.{Runs, seen};

use qvt_base::numbers::{Oid, Place};
use qvt_exec_reads::types::has_type;
use qvt_exec_state::state::RunState;
use qvt_exec_state::steps::misfit;
use qvt_exec_state::store::Store;
use qvt_run_data::exit::{End, Exit, Halt};
use qvt_run_data::fault::RunFault;
use qvt_types_data::ty::Ty;
use qvt_value::value::{Reason, Value};

/// The end of a run by a value that is invalid.
fn invalid<A>(reason: Reason, place: Place) -> Result<A, Halt>
    ensures { result ≡ Err (Halt.Exits (Exit.Ends (End.Fault (RunFault.InvalidValue reason) place))) }
{
    Err(Halt::Exits(Exit::Ends(End::Fault(RunFault::InvalidValue(reason), place))))
}

/// An object that there has to be.
pub(crate) fn object_of(place: Place, value: &Value, state: &RunState<'_>) -> Result<Oid, Halt>
    ensures { Runs (object_of place value.now (seen state.now)) result state.now }
{
    match value {
        Value::Obj(object) => Ok(*object),
        Value::Null => invalid(Reason::NullSource, place),
        Value::Invalid(reason, cause) => invalid(*reason, *cause),
        _ => misfit(place),
    }
}

/// Whether the value is of the type that is asked, if one is.
fn has_asked(store: &Store, of: Option<&Ty>, value: &Value) -> bool
    ensures { result ≡ has_asked store.now (option_copied of.entry) value.now }
{
    match of {
        None => true,
        Some(of) => has_type(store, of, value),
    }
}

/// A value of the type that is asked, if one is.
pub(crate) fn asked(
    of: Option<&Ty>,
    place: Place,
    value: Value,
    state: &RunState<'_>,
) -> Result<Value, Halt>
    ensures { Runs (asked (option_copied of.entry) place value (seen state.now)) result state.now }
{
    if has_asked(state.store.as_store(), of, &value) {
        Ok(value)
    } else {
        misfit(place)
    }
}
