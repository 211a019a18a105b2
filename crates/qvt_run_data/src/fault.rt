use qvt_value::value::Reason;

/// Why a run ends early, in the order of the faults.
#[derive(Clone, Copy, Debug, PartialEq, Eq)]
pub enum RunFault {
    /// A value that is invalid, for this reason, where none may be.
    InvalidValue(Reason),
    /// The condition of a mapping is false that an `xmap` calls.
    WhenFailed,
    /// A mapping is called whose key is open.
    MappingCycle,
    /// A mapping is to make an object of an abstract class.
    NoResult,
    TooMany,
    ContainmentCycle,
    CrossModel,
    ReadOnly,
    /// 100 calls of units are open.
    CallDepth,
    /// There are 1,000,000 objects.
    TooManyObjects,
    /// A value meets what is not defined for it.
    TypeFault,
}
