//! The variables in scope.

use crate::ty::Ty;
use qvt_base::text::Text;

/// What a variable is.
#[derive(Clone, Copy, Debug, PartialEq, Eq)]
pub enum VariableSort {
    /// A `var` or the variable of a `forEach`: it may be assigned.
    Settable,
    Parameter,
    /// An iterator, an accumulator or a named filter.
    Iterator,
    /// An unnamed iterator or filter, or `self`: an implicit source.
    Implicit,
}

/// A variable in scope, with its type, if it has one.
pub struct Variable {
    pub name: Text,
    pub sort: VariableSort,
    pub ty: Option<Ty>,
}

impl Drop for Variable {
    fn drop(self) {
        let Variable { name, sort, ty } = self;
    }
}
