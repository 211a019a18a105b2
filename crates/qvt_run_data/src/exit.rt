use crate::fault::RunFault;
use qvt_base::list_fault::ListFault;
use qvt_base::numbers::Place;
use qvt_value::value::Value;

/// What ends a run before its last statement.
#[derive(Clone, Copy, Debug, PartialEq, Eq)]
pub enum End {
    Fault(RunFault, Place),
    /// A charge would have passed the fuel.
    OutOfFuel,
}

/// What ends the phrases around it: a `return`, up to the body or section of its unit, with its value
/// if it has one; or the end of the run.
pub enum Exit {
    Returned(Option<Value>),
    Ends(End),
}

impl Drop for Exit {
    fn drop(self) {
        match self {
            Exit::Returned(value) => {}
            Exit::Ends(end) => {}
        }
    }
}

/// Why a phrase gives no value: what it does ends here, or there was no memory for it.
pub enum Halt {
    Exits(Exit),
    NoMemory,
}

impl Drop for Halt {
    fn drop(self) {
        match self {
            Halt::Exits(exit) => {}
            Halt::NoMemory => {}
        }
    }
}

impl From<ListFault> for Halt {
    ghost use Rattle.std.specs.Prelude.{◌≡◌};
    ghost use Rattle.qvt_run_data.specs.declared.exit.Halt.TheVariants.{NoMemory};

    ghost from_gives = { λ _ halt. halt ≡ NoMemory };

    fn from(_: ListFault) -> Halt {
        Halt::NoMemory
    }
}
