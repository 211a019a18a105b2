use qvt_base::list_fault::ListFault;
use qvt_base::numbers::Place;

/// Why a transformation is no program over the metamodels: the first refusal in the text, of several at one place the first in this
/// order, with its place.
#[derive(Clone, Copy, Debug, PartialEq, Eq)]
pub enum TypingFault {
    /// There was no memory.
    NoMemory,
    /// No metamodel has the name or uri of a model type.
    UnknownMetamodel(Place),
    /// A name stands for nothing.
    UnknownName(Place),
    /// A path names no type, or none of the sort that is wanted.
    UnknownType(Place),
    /// A name stands twice where it may stand once.
    SameName(Place),
    /// A type has several readings, or a call has no single choice.
    Ambiguous(Place),
    /// A type does not conform, or two do not join.
    WrongType(Place),
    /// The number of arguments is another.
    WrongCount(Place),
    /// Something is made, changed or called where nothing may be.
    NotPure(Place),
    /// A late resolve is not the whole right side of an assignment to a property.
    LatePlace(Place),
    /// A part of the condition of a resolve is not plain.
    NotPlain(Place),
    /// A mapping reaches itself by its lists, or an intermediate class itself by `extends`.
    ReuseCycle(Place),
    /// A mapping does not fit one that it inherits, merges or disjuncts to.
    BadReuse(Place),
    /// A unit does not fit one that it overrides.
    BadOverride(Place),
    /// A constructor stands outside a class, or has another name than its class.
    BadContext(Place),
    /// What is assigned can't be.
    BadTarget(Place),
    /// A `return` has a value where it may have none, or none where it has to have one.
    BadReturn(Place),
    /// There is no such extent for the class.
    BadExtent(Place),
    /// An object of an abstract class is made.
    AbstractClass(Place),
    /// `result` stands where there is none.
    ResultPlace(Place),
    /// A mapping with `disjuncts` has statements, or inherits or merges.
    BadDisjunct(Place),
    /// A model stands where no operation of a model takes it.
    ModelUse(Place),
    /// There is no `main`.
    NoMain(Place),
}

impl From<ListFault> for TypingFault {
    ghost use Rattle.std.specs.Prelude.{◌≡◌};
    ghost use Rattle.qvt_types.specs.declared.fault.TypingFault.TheVariants.{NoMemory};

    ghost from_gives = { λ _ e. e ≡ NoMemory };

    fn from(_: ListFault) -> TypingFault {
        TypingFault::NoMemory
    }
}
