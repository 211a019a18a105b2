//! Faults that end a run.

ghost use Rattle.std.specs.Prelude.{◌≡◌, Err};

use qvt_base::numbers::Place;
use qvt_run_data::exit::{End, Exit, Halt};
use qvt_run_data::fault::RunFault;

/// The run ends with this fault.
pub fn faulted<A>(fault: RunFault, place: Place) -> Result<A, Halt>
    ensures { result ≡ Err (Halt.Exits (Exit.Ends (End.Fault fault place))) }
{
    Err(Halt::Exits(Exit::Ends(End::Fault(fault, place))))
}
