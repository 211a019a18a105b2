use crate::tree::{TypedExpr, TypedStmts};
use crate::types::{TypedPathList, TypedPathTree, TypedTypeTree};
use qvt_base::lists::NameList;
use qvt_base::numbers::Place;
use qvt_base::seq::Seq;
use qvt_base::text::Text;
use qvt_tree_types::words::Direction;
use qvt_types_data::note::Note;

pub type TypedModelTypeList = Seq<TypedModelType>;

pub type TypedModelParamList = Seq<TypedModelParam>;

pub type TypedUnitList = Seq<TypedUnit>;

pub type TypedFieldList = Seq<TypedField>;

pub type TypedParamList = Seq<TypedParam>;

/// A transformation with its model types, its header and its units (QVT 1.3, 8.2.1).
pub struct TypedModule {
    pub model_types: TypedModelTypeList,
    pub name: Text,
    pub params: TypedModelParamList,
    pub units: TypedUnitList,
    /// The place after the last character of its text.
    pub end: Place,
}

impl Drop for TypedModule {
    fn drop(self) {
        let TypedModule {
            model_types,
            name,
            params,
            units,
            end,
        } = self;
    }
}

/// A `modeltype`: a name for the metamodel that has this uri or name.
#[derive(Drop)]
pub struct TypedModelType {
    pub name: Text,
    pub uri: Text,
    pub place: Place,
    pub note: Note,
}

#[derive(Drop)]
pub struct TypedModelParam {
    pub direction: Direction,
    pub name: Text,
    pub model_type: Text,
    pub place: Place,
    pub note: Note,
}

pub enum TypedUnit {
    Class(TypedClassDecl),
    Main(TypedStmts, Place, Note),
    Helper(TypedHelper),
    /// A constructor: `pure` is false, and there is no answer.
    Constructor(TypedHelper),
    Mapping(Box<TypedMapping>),
}

impl Drop for TypedUnit {
    fn drop(self) {
        match self {
            TypedUnit::Class(part) => {}
            TypedUnit::Main(part, place, note) => {}
            TypedUnit::Helper(part) => {}
            TypedUnit::Constructor(part) => {}
            TypedUnit::Mapping(part) => {}
        }
    }
}

/// An intermediate class.
#[derive(Drop)]
pub struct TypedClassDecl {
    pub name: Text,
    pub supers: TypedPathList,
    pub features: TypedFieldList,
    pub place: Place,
    pub note: Note,
}

#[derive(Drop)]
pub struct TypedField {
    pub name: Text,
    pub kind: TypedTypeTree,
    pub place: Place,
    pub note: Note,
}

/// A helper or query, with the place of the last name of its path. `pure` tells a `query`.
#[derive(Drop)]
pub struct TypedHelper {
    pub pure: bool,
    pub path: NameList,
    pub params: TypedParamList,
    pub answer: Option<TypedTypeTree>,
    pub body: TypedStmts,
    pub place: Place,
    pub note: Note,
}

/// A mapping (QVT 1.3, 8.2.1.15), with the place of the last name of its path.
#[derive(Drop)]
pub struct TypedMapping {
    pub path: NameList,
    pub params: TypedParamList,
    pub result: Option<TypedResultDecl>,
    pub inherits: TypedPathList,
    pub merges: TypedPathList,
    pub disjuncts: TypedPathList,
    /// The condition of its `when`.
    pub condition: Option<TypedExpr>,
    pub init: TypedStmts,
    pub population: TypedStmts,
    pub finish: TypedStmts,
    pub place: Place,
    pub note: Note,
}

/// The result class of a mapping, and the name after `@`.
#[derive(Drop)]
pub struct TypedResultDecl {
    pub path: TypedPathTree,
    pub extent: Option<Text>,
    pub place: Place,
    pub note: Note,
}

#[derive(Drop)]
pub struct TypedParam {
    pub name: Text,
    pub kind: TypedTypeTree,
    pub place: Place,
    pub note: Note,
}
