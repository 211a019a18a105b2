use crate::info::EnumInfo;
use qvt_base::lists::NameList;
use qvt_base::seq::Seq;
use qvt_base::text::Text;

/// A feature as a metamodel's file declares it, its type and opposite by name. `upper` is None
/// where there is no upper bound.
pub struct DeclaredFeature {
    pub name: Text,
    pub kind: Text,
    pub lower: u32,
    pub upper: Option<u32>,
    pub ordered: bool,
    pub unique: bool,
    pub containment: bool,
    pub opposite: Option<Text>,
}

impl Drop for DeclaredFeature {
    fn drop(self) {
        let DeclaredFeature {
            name,
            kind,
            lower,
            upper,
            ordered,
            unique,
            containment,
            opposite,
        } = self;
    }
}

/// A class as a metamodel's file declares it, its superclasses by name.
pub struct DeclaredClass {
    pub name: Text,
    pub is_abstract: bool,
    pub supers: NameList,
    pub features: Seq<DeclaredFeature>,
}

impl Drop for DeclaredClass {
    fn drop(self) {
        let DeclaredClass {
            name,
            is_abstract,
            supers,
            features,
        } = self;
    }
}

/// What a metamodel's file declares, everything by name.
pub struct MetaData {
    pub name: Text,
    pub uri: Option<Text>,
    pub enums: Seq<EnumInfo>,
    pub classes: Seq<DeclaredClass>,
}

impl Drop for MetaData {
    fn drop(self) {
        let MetaData {
            name,
            uri,
            enums,
            classes,
        } = self;
    }
}
