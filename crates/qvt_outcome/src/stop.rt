use crate::refusal::Refusal;
use qvt_base::list_fault::ListFault;
use qvt_base::lists::Bytes;
use qvt_base::text::Text;

/// Why the work of a command ended before its end.
pub enum Stop {
    /// A file was refused.
    Refused(Text, Refusal),
    /// The run met a fault, which this line tells.
    Fault(Bytes),
    /// The cost would pass this fuel.
    OutOfFuel(u64),
    /// A model, the id of an object in it, and the name of a feature of which it has too few items.
    Low(Text, Text, Text),
    /// This file could not be read.
    ReadFault(Text),
    NoMemory,
}

impl Drop for Stop {
    fn drop(self) {
        match self {
            Stop::Refused(file, why) => {}
            Stop::Fault(line) => {}
            Stop::OutOfFuel(fuel) => {}
            Stop::Low(model, id, feature) => {}
            Stop::ReadFault(file) => {}
            Stop::NoMemory => {}
        }
    }
}

impl From<ListFault> for Stop {
    ghost use Rattle.std.specs.Prelude.{◌≡◌};
    ghost use Rattle.qvt_outcome.specs.declared.stop.Stop.TheVariants.{NoMemory};

    ghost from_gives = { λ _ e. e ≡ NoMemory };

    fn from(_: ListFault) -> Stop {
        Stop::NoMemory
    }
}
