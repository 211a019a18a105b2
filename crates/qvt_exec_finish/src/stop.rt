//! What ends a run early.

use qvt_base::list_fault::ListFault;
use qvt_run_data::exit::End;

/// Why a run is not finished: it ends with a fault or for want of fuel, or there was no memory for it.
#[derive(Clone, Copy, Debug, PartialEq, Eq)]
pub enum RunStop {
    Ends(End),
    NoMemory,
}

impl From<ListFault> for RunStop {
    ghost use Rattle.std.specs.Prelude.{◌≡◌};
    ghost use Rattle.qvt_exec_finish.specs.declared.stop.RunStop.TheVariants.{NoMemory};

    ghost from_gives = { λ _ stop. stop ≡ NoMemory };

    fn from(_: ListFault) -> RunStop {
        RunStop::NoMemory
    }
}
