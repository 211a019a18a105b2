ghost use Rattle.std.specs.Prelude.{◌≡◌};

use qvt_base::list_fault::ListFault;
use std::alloc::{AllocError, AllocFailed};
use thiserror::Error;

/// Why a call of a store is refused. The refusals stand in the order in which they are judged.
#[derive(Clone, Copy, Debug, PartialEq, Eq, Error)]
pub enum StoreFault {
    /// A slot would hold more items than its upper bound.
    #[error("a slot would hold more items than its upper bound")]
    TooMany,
    /// An object would be inside itself.
    #[error("an object would be inside itself")]
    ContainmentCycle,
    /// The object is in an extent that is not writable.
    #[error("the object is in an extent that can not be changed")]
    ReadOnly,
    /// A slot of a model would hold an object of another extent.
    #[error("a slot of a model would hold an object of another extent")]
    CrossModel,
    /// There are 1,000,000 objects.
    #[error("there are 1000000 objects")]
    TooManyObjects,
    /// There was no memory.
    #[error("no memory")]
    NoMemory,
}

impl From<ListFault> for StoreFault {
    ghost use Rattle.qvt_slots.specs.declared.fault.StoreFault.{StoreFault};

    ghost from_gives = { λ _ e. e ≡ StoreFault.NoMemory };

    fn from(_fault: ListFault) -> StoreFault {
        StoreFault::NoMemory
    }
}

impl From<AllocError> for StoreFault {
    ghost use Rattle.qvt_slots.specs.declared.fault.StoreFault.{StoreFault};

    ghost from_gives = { λ _ e. e ≡ StoreFault.NoMemory };

    fn from(_fault: AllocError) -> StoreFault {
        StoreFault::NoMemory
    }
}

impl<T: Drop> From<AllocFailed<T>> for StoreFault {
    ghost use Rattle.qvt_slots.specs.declared.fault.StoreFault.{StoreFault};

    ghost from_gives = { λ _ e. e ≡ StoreFault.NoMemory };

    fn from(_fault: AllocFailed<T>) -> StoreFault {
        StoreFault::NoMemory
    }
}
