//! Outcomes and costs.

ghost use Rattle.std.specs.Prelude.{Err, IfOk};
ghost use Rattle.qvt_exec_plain.specs.Told.{EndsAs};

use qvt_base::copied::Copied;
use qvt_base::list_fault::ListFault;
use qvt_run_data::exit::{End, Exit, Halt};
use qvt_value::value::Value;
use std::alloc::Global;

/// What an expression gives: its value, which may be invalid, or the fault that ends its evaluation; and
/// its cost, a cost above the greatest number of 64 bits being told as that number.
pub struct Told {
    pub outcome: Result<Value, End>,
    pub cost: u64,
}

impl Drop for Told {
    fn drop(self) {
        let Told { outcome, cost } = self;
    }
}

/// The outcome that an end of phrases is.
fn end_of(alloc: Global, halt: &Halt) -> Result<Result<Value, End>, ListFault>
    ensures { IfOk result (EndsAs (Err halt.now)) }
{
    match halt {
        Halt::NoMemory => Err(ListFault::NoMemory),
        Halt::Exits(exit) => match exit {
            Exit::Ends(end) => Ok(Err(*end)),
            Exit::Returned(None) => Ok(Ok(Value::Null)),
            Exit::Returned(Some(value)) => Ok(Ok(value.copy(alloc)?)),
        },
    }
}

/// The outcome of an evaluation.
pub fn outcome_of(
    alloc: Global,
    given: Result<Value, Halt>,
) -> Result<Result<Value, End>, ListFault>
    ensures { IfOk result (EndsAs given) }
{
    match given {
        Ok(value) => Ok(Ok(value)),
        Err(halt) => end_of(alloc, &halt),
    }
}
