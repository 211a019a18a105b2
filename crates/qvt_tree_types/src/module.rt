use crate::tree::{Expr, Stmts};
use crate::types::{PathList, PathTree, TypeTree};
use crate::words::Direction;
use qvt_base::lists::NameList;
use qvt_base::numbers::Place;
use qvt_base::seq::Seq;
use qvt_base::text::Text;

pub type ModelTypeList = Seq<ModelType>;

pub type ModelParamList = Seq<ModelParam>;

pub type UnitList = Seq<Unit>;

pub type FieldList = Seq<Field>;

pub type ParamList = Seq<Param>;

/// A transformation with its model types, its header and its units (QVT 1.3, 8.2.1).
pub struct Module {
    pub model_types: ModelTypeList,
    pub name: Text,
    pub params: ModelParamList,
    pub units: UnitList,
    /// The place after the last character of its text.
    pub end: Place,
}

impl Drop for Module {
    fn drop(self) {
        let Module {
            model_types,
            name,
            params,
            units,
            end,
        } = self;
    }
}

/// A `modeltype`: a name for the metamodel that has this uri or name.
#[derive(Drop)]
pub struct ModelType {
    pub name: Text,
    pub uri: Text,
    pub place: Place,
}

#[derive(Drop)]
pub struct ModelParam {
    pub direction: Direction,
    pub name: Text,
    pub model_type: Text,
    pub place: Place,
}

pub enum Unit {
    Class(ClassDecl),
    Main(Stmts, Place),
    Helper(Helper),
    /// A constructor: `pure` is false, and there is no answer.
    Constructor(Helper),
    Mapping(Mapping),
}

impl Drop for Unit {
    fn drop(self) {
        match self {
            Unit::Class(part) => {}
            Unit::Main(part, place) => {}
            Unit::Helper(part) => {}
            Unit::Constructor(part) => {}
            Unit::Mapping(part) => {}
        }
    }
}

/// An intermediate class.
#[derive(Drop)]
pub struct ClassDecl {
    pub name: Text,
    pub supers: PathList,
    pub features: FieldList,
    pub place: Place,
}

#[derive(Drop)]
pub struct Field {
    pub name: Text,
    pub kind: TypeTree,
    pub place: Place,
}

/// A helper or query, with the place of the last name of its path. `pure` tells a `query`.
#[derive(Drop)]
pub struct Helper {
    pub pure: bool,
    pub path: NameList,
    pub params: ParamList,
    pub answer: Option<TypeTree>,
    pub body: Stmts,
    pub place: Place,
}

/// A mapping (QVT 1.3, 8.2.1.15), with the place of the last name of its path.
#[derive(Drop)]
pub struct Mapping {
    pub path: NameList,
    pub params: ParamList,
    pub result: Option<ResultDecl>,
    pub inherits: PathList,
    pub merges: PathList,
    pub disjuncts: PathList,
    /// The condition of its `when`.
    pub condition: Option<Expr>,
    pub init: Stmts,
    pub population: Stmts,
    pub finish: Stmts,
    pub place: Place,
}

/// The result class of a mapping, and the name after `@`.
#[derive(Drop)]
pub struct ResultDecl {
    pub path: PathTree,
    pub extent: Option<Text>,
    pub place: Place,
}

#[derive(Drop)]
pub struct Param {
    pub name: Text,
    pub kind: TypeTree,
    pub place: Place,
}
