//! What a unit of a transformation is called by, and what it takes and gives.

use qvt_base::numbers::{ClassNo, MappingNo, Place};
use qvt_base::seq::Seq;
use qvt_base::text::Text;
use qvt_types_data::ty::Ty;

/// What a unit is. Mappings have numbers of their own, from 0 in the order of the text.
#[derive(Clone, Copy, Debug, PartialEq, Eq)]
pub enum UnitSort {
    Class,
    Main,
    Helper,
    Query,
    Constructor,
    Mapping(MappingNo),
}

/// The class that stands in the head of a unit: none stands there, what stands there names no class, or a class.
#[derive(Clone, Copy, Debug, PartialEq, Eq)]
pub enum HeadClass {
    Missing,
    Unknown,
    Known(ClassNo),
}

/// The types of parameters, in order; one that is unknown is None.
pub type ParamTypes = Seq<Option<Ty>>;

/// The signature of a unit.
pub struct Signature {
    pub sort: UnitSort,
    /// The last name of its path, or the name of the class; empty for a `main`.
    pub name: Text,
    pub context: HeadClass,
    pub params: ParamTypes,
    /// The type of a call of the unit: that of null where it answers nothing, None where it is unknown.
    pub answer: Option<Ty>,
    /// The result class of a mapping.
    pub result: HeadClass,
    pub place: Place,
}

impl Drop for Signature {
    fn drop(self) {
        let Signature {
            sort,
            name,
            context,
            params,
            answer,
            result,
            place,
        } = self;
    }
}

/// The signatures of all units. The number of a unit is its place here.
pub type SignatureList = Seq<Signature>;
