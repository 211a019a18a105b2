use crate::info::FeatureShape;
use qvt_base::lists::ClassNoList;
use qvt_base::seq::Seq;
use qvt_base::text::Text;

/// A feature of a class that is declared beside metamodels: it has no opposite.
pub struct FeatureData {
    pub name: Text,
    pub shape: FeatureShape,
}

impl Drop for FeatureData {
    fn drop(self) {
        let FeatureData { name, shape } = self;
    }
}

/// Such features, in order.
pub type FeatureDataList = Seq<FeatureData>;

/// A class that is declared beside metamodels, as a transformation's intermediate classes are.
pub struct ClassData {
    pub name: Text,
    pub supers: ClassNoList,
    pub features: FeatureDataList,
}

impl Drop for ClassData {
    fn drop(self) {
        let ClassData {
            name,
            supers,
            features,
        } = self;
    }
}

/// Such classes, in order.
pub type ClassDataList = Seq<ClassData>;
