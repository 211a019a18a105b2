//! What a step asks of objects and models.

/// A test of an object with a class, or its cast (OCL 2.4, 11.3.3).
#[derive(Clone, Copy, Debug, PartialEq, Eq)]
pub enum ObjectTest {
    IsKindOf,
    IsTypeOf,
    AsType,
}

/// An operation of a model (QVT 1.3, 8.3.4.1 to 8.3.4.3), with the number of the class that is asked
/// for.
#[derive(Clone, Copy, Debug, PartialEq, Eq)]
pub enum ModelQuery {
    Objects,
    RootObjects,
    ObjectsOfType(u32),
}
