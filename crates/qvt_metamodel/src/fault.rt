use qvt_base::list_fault::ListFault;
use qvt_base::text::Text;
use std::alloc::AllocFailed;

/// Why a metamodel's file is refused.
pub enum MetaFault {
    /// There was no memory.
    NoMemory,
    /// The file has no JSON value.
    Json,
    /// The value is not of the form of a metamodel. The path names the first fault.
    Shape(Text),
    /// The name of an enumeration or a class that an earlier one has, or Boolean, Integer or String;
    /// or a literal that stands twice in its enumeration.
    SameName(Text),
    /// A class, and the name in it that is no class as a superclass must be, or no type.
    UnknownType(Text, Text),
    /// A class that is its own ancestor.
    InheritanceCycle(Text),
    /// A class, and its feature whose lower bound is above the upper one.
    BadBounds(Text, Text),
    /// A class, and its feature that may not be a containment or have its opposite.
    BadOpposite(Text, Text),
    /// A class, and the name that two different ones of its features have.
    SameFeature(Text, Text),
}

impl Drop for MetaFault {
    fn drop(self) {
        match self {
            MetaFault::NoMemory => {}
            MetaFault::Json => {}
            MetaFault::Shape(path) => {}
            MetaFault::SameName(name) => {}
            MetaFault::UnknownType(class, name) => {}
            MetaFault::InheritanceCycle(class) => {}
            MetaFault::BadBounds(class, feature) => {}
            MetaFault::BadOpposite(class, feature) => {}
            MetaFault::SameFeature(class, name) => {}
        }
    }
}

impl From<ListFault> for MetaFault {
    ghost use Rattle.std.specs.Prelude.{◌≡◌};
    ghost use Rattle.qvt_metamodel.specs.declared.fault.MetaFault.TheVariants.{NoMemory};

    ghost from_gives = { λ _ e. e ≡ NoMemory };

    fn from(_: ListFault) -> MetaFault {
        MetaFault::NoMemory
    }
}

/// Why a metamodel is not added.
pub enum MetasFault {
    /// A metamodel of this name is there already.
    SameMetamodel(Text),
    /// There was no memory.
    NoMemory,
}

impl Drop for MetasFault {
    fn drop(self) {
        match self {
            MetasFault::SameMetamodel(name) => {}
            MetasFault::NoMemory => {}
        }
    }
}

impl From<ListFault> for MetasFault {
    ghost use Rattle.std.specs.Prelude.{◌≡◌};
    ghost use Rattle.qvt_metamodel.specs.declared.fault.MetasFault.TheVariants.{NoMemory};

    ghost from_gives = { λ _ e. e ≡ NoMemory };

    fn from(_: ListFault) -> MetasFault {
        MetasFault::NoMemory
    }
}

impl<T: Drop> From<AllocFailed<T>> for MetasFault {
    ghost use Rattle.std.specs.Prelude.{◌≡◌};
    ghost use Rattle.qvt_metamodel.specs.declared.fault.MetasFault.TheVariants.{NoMemory};

    ghost from_gives = { λ _ e. e ≡ NoMemory };

    fn from(_: AllocFailed<T>) -> MetasFault {
        MetasFault::NoMemory
    }
}
