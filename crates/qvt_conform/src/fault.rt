ghost use Rattle.std.specs.Prelude.{◌≡◌};

use qvt_base::list_fault::ListFault;
use qvt_base::numbers::{FeatureNo, Oid};
use qvt_base::text::Text;
use std::alloc::AllocError;

/// Why a model does not conform to its metamodel: the id of an object, and the name of a feature of
/// its class.
pub enum ConformFault {
    /// There was no memory.
    NoMemory,
    /// The class of the object is abstract.
    Abstract(Text),
    /// The object holds fewer items than the lower bound, or more than the upper.
    Bounds(Text, Text),
    /// The object holds an item twice where each may stand once.
    NotUnique(Text, Text),
    /// The object holds one that does not hold it for the opposite.
    Opposite(Text, Text),
    /// The object stands in containment slots more than once over the model.
    TwoContainers(Text),
    /// The object is inside itself.
    ContainmentCycle(Text),
}

impl Drop for ConformFault {
    fn drop(self) {
        match self {
            ConformFault::NoMemory => {}
            ConformFault::Abstract(id) => {}
            ConformFault::Bounds(id, feature) => {}
            ConformFault::NotUnique(id, feature) => {}
            ConformFault::Opposite(id, feature) => {}
            ConformFault::TwoContainers(id) => {}
            ConformFault::ContainmentCycle(id) => {}
        }
    }
}

impl From<ListFault> for ConformFault {
    ghost use Rattle.qvt_conform.specs.declared.fault.ConformFault.TheVariants.{NoMemory};

    ghost from_gives = { λ _ e. e ≡ NoMemory };

    fn from(_: ListFault) -> ConformFault {
        ConformFault::NoMemory
    }
}

impl From<AllocError> for ConformFault {
    ghost use Rattle.qvt_conform.specs.declared.fault.ConformFault.TheVariants.{NoMemory};

    ghost from_gives = { λ _ e. e ≡ NoMemory };

    fn from(_: AllocError) -> ConformFault {
        ConformFault::NoMemory
    }
}

/// An object that holds fewer items for a feature of its class than the lower bound.
#[derive(Clone, Copy)]
pub struct LowFault {
    pub object: Oid,
    pub feature: FeatureNo,
}
