//! What the parts of a node give beside a type.

use qvt_base::numbers::FeatureNo;
use qvt_base::text::Text;
use qvt_types_data::note::UnitNoList;
use qvt_types_data::ty::Ty;
use qvt_types_steps::classes::ClassPart;
use qvt_types_units::choice::FoundUnit;

/// What a node does to a run.
#[derive(Clone, Copy, Debug, PartialEq, Eq)]
pub enum Effect {
    /// It makes and changes nothing, and looks at no unit and no trace.
    PlainOne,
    /// It makes and changes nothing.
    PureOne,
    ImpureOne,
}

/// The mapping of an `In` form.
#[derive(Clone, Copy, Debug, PartialEq, Eq)]
pub enum Within {
    /// There is none.
    Everywhere,
    /// What stands there names no mapping.
    Nobody,
    /// The unit of this number.
    In(u32),
}

/// The class that a filter names.
#[derive(Clone, Copy, Debug, PartialEq, Eq)]
pub enum Filtered {
    NoFilter,
    By(ClassPart),
}

/// A part that may be written, with its type, if it has one.
pub struct Given {
    pub is_given: bool,
    pub ty: Option<Ty>,
}

impl Drop for Given {
    fn drop(self) {
        let Given { is_given, ty } = self;
    }
}

/// The variable of an object expression: none, one of a type, or one whose type is unknown.
pub enum ObjectVariable {
    NoVariable,
    OfType(Ty),
    OfNone,
}

impl Drop for ObjectVariable {
    fn drop(self) {
        match self {
            ObjectVariable::NoVariable => {}
            ObjectVariable::OfType(ty) => {}
            ObjectVariable::OfNone => {}
        }
    }
}

/// What an assignment writes (QVT 1.3, 8.2.2.11).
pub enum Aim {
    /// Nothing has the name.
    Nowhere,
    /// A property whose type, or whose object's type, is not known.
    UntypedProperty,
    /// A variable whose type is not known.
    UntypedVariable,
    /// What cannot be assigned.
    Fixed,
    /// A variable of the type.
    VariableOf(Text, Ty),
    /// A property, and the variable that holds the object where this is the implicit source.
    Property(Option<Text>, FeatureNo),
}

impl Drop for Aim {
    fn drop(self) {
        match self {
            Aim::Nowhere => {}
            Aim::UntypedProperty => {}
            Aim::UntypedVariable => {}
            Aim::Fixed => {}
            Aim::VariableOf(name, ty) => {}
            Aim::Property(source, feature) => {}
        }
    }
}

/// What a call by a name finds, the units that it then chooses among, and its implicit source.
pub struct Called {
    pub found: FoundUnit,
    pub units: UnitNoList,
    pub source: Option<Text>,
}

impl Drop for Called {
    fn drop(self) {
        let Called {
            found,
            units,
            source,
        } = self;
    }
}
