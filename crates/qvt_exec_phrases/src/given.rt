//! What the body of a unit gives back.

ghost use Rattle.std.specs.Prelude.{◌≡◌};
ghost use Rattle.qvt_run_data.specs.declared.late.LateWrite.{LateWrite};
ghost use Rattle.qvt_run_rules.specs.Calls.{given_in};
ghost use Rattle.qvt_run_rules.specs.State.{Done, caught_in};
ghost use Rattle.qvt_exec_state.specs.Runs.{Runs};
ghost use Rattle.qvt_exec_phrases.specs.Frames.{or_null};

use qvt_exec_state::state::RunState;
use qvt_run_data::exit::{Exit, Halt};
use qvt_value::value::Value;
use std::mem;

/// The value, taken out, or null.
fn taken_out(value: &mut Option<Value>) -> Value
    ensures { result ≡ or_null value.old }
{
    match mem::replace(value, None) {
        None => Value::Null,
        Some(value) => value,
    }
}

/// The value of a body with this outcome: null, where it ended without one.
pub fn given(outcome: Result<(), Halt>) -> Result<Value, Halt>
    ensures { (d : Done LateWrite (Unit {0})) (s : RunState) → Runs d outcome s → Runs (given_in d.0 d.1) result s }
{
    let mut outcome = outcome;
    match &mut outcome {
        Ok(()) => Ok(Value::Null),
        Err(Halt::NoMemory) => Err(Halt::NoMemory),
        Err(Halt::Exits(Exit::Returned(value))) => Ok(taken_out(value)),
        Err(Halt::Exits(Exit::Ends(end))) => Err(Halt::Exits(Exit::Ends(*end))),
    }
}

/// Whether a `return` ended a body or section with this outcome.
pub fn caught(outcome: Result<(), Halt>) -> Result<bool, Halt>
    ensures { (d : Done LateWrite (Unit {0})) (s : RunState) → Runs d outcome s → Runs (caught_in d.0 d.1) result s }
{
    match &outcome {
        Ok(()) => Ok(false),
        Err(Halt::NoMemory) => Err(Halt::NoMemory),
        Err(Halt::Exits(Exit::Returned(_))) => Ok(true),
        Err(Halt::Exits(Exit::Ends(end))) => Err(Halt::Exits(Exit::Ends(*end))),
    }
}
