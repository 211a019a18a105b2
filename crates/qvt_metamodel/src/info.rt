use qvt_base::lists::{ClassNoList, FeatureNoList, NameList};
use qvt_base::numbers::{ClassNo, FeatureNo};
use qvt_base::seq::Seq;
use qvt_base::text::Text;

/// The type of a feature. The two numbers of an enumeration are those of its metamodel and its
/// place there.
#[derive(Clone, Copy, Debug, PartialEq, Eq)]
pub enum TypeKind {
    Bool,
    Int,
    Str,
    Enum(u32, u32),
    Class(ClassNo),
}

/// What a feature holds (EMOF's Property): `upper` is None where there is no upper bound.
#[derive(Clone, Copy, Debug, PartialEq, Eq)]
pub struct FeatureShape {
    pub kind: TypeKind,
    pub lower: u32,
    pub upper: Option<u32>,
    pub ordered: bool,
    pub unique: bool,
    pub containment: bool,
}

/// An enumeration with its literals in order.
pub struct EnumInfo {
    pub name: Text,
    pub literals: NameList,
}

impl Drop for EnumInfo {
    fn drop(self) {
        let EnumInfo { name, literals } = self;
    }
}

/// A metamodel apart from its classes.
pub struct MetamodelInfo {
    pub name: Text,
    pub uri: Option<Text>,
    pub enums: Seq<EnumInfo>,
}

impl Drop for MetamodelInfo {
    fn drop(self) {
        let MetamodelInfo { name, uri, enums } = self;
    }
}

/// A class: its metamodel, its superclasses in order, and the features that it declares itself.
pub struct ClassInfo {
    pub metamodel: u32,
    pub name: Text,
    pub is_abstract: bool,
    pub supers: ClassNoList,
    pub own: FeatureNoList,
}

impl Drop for ClassInfo {
    fn drop(self) {
        let ClassInfo {
            metamodel,
            name,
            is_abstract,
            supers,
            own,
        } = self;
    }
}

/// A feature: the class that declares it, what it holds, and its opposite.
pub struct FeatureInfo {
    pub owner: ClassNo,
    pub name: Text,
    pub shape: FeatureShape,
    pub opposite: Option<FeatureNo>,
}

impl Drop for FeatureInfo {
    fn drop(self) {
        let FeatureInfo {
            owner,
            name,
            shape,
            opposite,
        } = self;
    }
}
