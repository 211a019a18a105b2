//! Faults that end a run.

ghost use Rattle.std.specs.Prelude.{◌≡◌, Err};
ghost use Rattle.qvt_run_rules.specs.Store.{fault_of};

use qvt_base::numbers::Place;
use qvt_run_data::exit::{End, Exit, Halt};
use qvt_run_data::fault::RunFault;
use qvt_store::fault::StoreFault;

/// The run ends with this fault.
pub(crate) fn faulted<A>(fault: RunFault, place: Place) -> Result<A, Halt>
    ensures { result ≡ Err (Halt.Exits (Exit.Ends (End.Fault fault place))) }
{
    Err(Halt::Exits(Exit::Ends(End::Fault(fault, place))))
}

/// The fault that the refusal of a change is.
pub(crate) fn fault_of(refusal: StoreFault) -> RunFault
    ensures { result ≡ fault_of refusal }
{
    match refusal {
        StoreFault::TooMany => RunFault::TooMany,
        StoreFault::ContainmentCycle => RunFault::ContainmentCycle,
        StoreFault::ReadOnly => RunFault::ReadOnly,
        StoreFault::CrossModel => RunFault::CrossModel,
        StoreFault::TooManyObjects => RunFault::TooManyObjects,
        StoreFault::NoMemory => RunFault::TypeFault,
    }
}
