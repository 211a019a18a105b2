//! What a call of a unit calls (QVT 1.3, 8.2.1.10 to 8.2.1.15).

use qvt_base::numbers::Oid;

/// How a mapping is called.
#[derive(Clone, Copy, Debug, PartialEq, Eq)]
pub enum Way {
    /// By a `map`, or by an `xmap` where this is true.
    Called(bool),
    /// As a candidate of a dispatcher, whose `when` was true.
    Chosen,
    /// On the result of the mapping that reuses it.
    Reused(Option<Oid>),
}

/// What is called.
#[derive(Clone, Copy, Debug, PartialEq, Eq)]
pub enum Callee {
    /// A helper or query, by the number of its unit, on its context if it has one.
    HelperCall(u32, Option<Oid>),
    /// A constructor, by the number of its unit, with the class and the extent of the new object.
    ConstructorCall(u32, u32, u32),
    /// A mapping, by its number among mappings, on its context if it has one.
    MappingCall(u32, Way, Option<Oid>),
}
