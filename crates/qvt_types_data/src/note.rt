//! What typing writes on a node of the tree.

ghost use Rattle.std.specs.Prelude.{◌≡◌};
ghost use Rattle.qvt_types_data.specs.Notes as notes;

use crate::ty::Ty;
use qvt_base::lists::MappingList;
use qvt_base::numbers::{ClassNo, ExprNo, FeatureNo};
use qvt_base::seq::Seq;
use qvt_base::text::Text;

/// Units by their numbers in the transformation, from 0.
pub type UnitNoList = Seq<u32>;

/// What a name, an operator or a path stands for.
pub enum Reading {
    Nothing,
    /// A variable, parameter or iterator, by its name.
    Variable(Text),
    Feature(FeatureNo),
    /// A literal, by the numbers of its metamodel, its enumeration and itself.
    Literal(u32, u32, u32),
    /// A model parameter, by its number.
    Model(u32),
    /// An operation or iterator, by its name.
    Operation(Text),
    /// The helpers, queries or constructors among which a call chooses.
    Units(UnitNoList),
    /// The mappings among which a call chooses.
    Mappings(MappingList),
    /// A type.
    Typed(Ty),
    /// The class of a new object, and the number of the extent that it is made in.
    Make(ClassNo, u32),
}

impl Drop for Reading {
    fn drop(self) {
        match self {
            Reading::Nothing => {}
            Reading::Variable(name) => {}
            Reading::Feature(feature) => {}
            Reading::Literal(metamodel, enumeration, literal) => {}
            Reading::Model(model) => {}
            Reading::Operation(name) => {}
            Reading::Units(units) => {}
            Reading::Mappings(mappings) => {}
            Reading::Typed(ty) => {}
            Reading::Make(class, extent) => {}
        }
    }
}

/// What typing writes on a node. `number` and `answer` are there for expressions alone.
pub struct Note {
    pub reading: Reading,
    /// The variable that is the implicit source.
    pub source: Option<Text>,
    /// Whether the source is wrapped in a Set.
    pub wrap: bool,
    /// Whether the step is applied to each item of its source.
    pub collect: bool,
    /// The number of the expression.
    pub number: Option<ExprNo>,
    /// The type of the expression, where it has one.
    pub answer: Option<Ty>,
}

impl Drop for Note {
    fn drop(self) {
        let Note {
            reading,
            source,
            wrap,
            collect,
            number,
            answer,
        } = self;
    }
}

impl Note {
    /// The note on which nothing is written.
    pub fn bare() -> Note
        ensures { result ≡ notes.bare }
    {
        Note {
            reading: Reading::Nothing,
            source: None,
            wrap: false,
            collect: false,
            number: None,
            answer: None,
        }
    }
}
