ghost use Rattle.qvt_trace.specs.declared.fault.TraceFault.TheVariants.{NoMemory};

use qvt_base::list_fault::ListFault;
use qvt_run_rules::exit::Halt;
use std::alloc::AllocError;
use thiserror::Error;

/// Why a trace has no record more.
#[derive(Clone, Copy, Debug, PartialEq, Eq, Error)]
pub enum TraceFault {
    #[error("there was no memory for a record")]
    NoMemory,
}

impl From<ListFault> for TraceFault {
    ghost use Rattle.std.specs.Prelude.{◌≡◌};

    ghost from_gives = { λ _ e. e ≡ NoMemory };

    fn from(_fault: ListFault) -> TraceFault {
        TraceFault::NoMemory
    }
}

impl From<AllocError> for TraceFault {
    ghost use Rattle.std.specs.Prelude.{◌≡◌};

    ghost from_gives = { λ _ e. e ≡ NoMemory };

    fn from(_error: AllocError) -> TraceFault {
        TraceFault::NoMemory
    }
}

impl From<TraceFault> for Halt {
    ghost use Rattle.std.specs.Prelude.{◌≡◌};
    ghost use Rattle.qvt_run_rules.specs.declared.exit.Halt.{Halt};

    ghost from_gives = { λ _ halt. halt ≡ Halt.NoMemory };

    fn from(_fault: TraceFault) -> Halt {
        Halt::NoMemory
    }
}
