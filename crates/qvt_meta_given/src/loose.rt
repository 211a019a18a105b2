//! Whether the features of given classes neither contain nor need anything.

ghost use Rattle.std.specs.Prelude.{◌≡◌};
ghost use Rattle.qvt_meta_given.specs.Given.{is_loose, has_loose_features, are_loose};

use qvt_metas::given::{ClassData, FeatureData};

fn is_loose(feature: &FeatureData) -> bool
    ensures { result ≡ is_loose feature.now }
{
    !feature.shape.containment && feature.shape.lower == 0
}

fn has_loose_features(class: &ClassData) -> bool
    ensures { result ≡ has_loose_features class.now }
{
    for feature in class.features.as_slice() {
        if !is_loose(feature) {
            return false;
        }
    }
    true
}

/// Whether no feature of the classes is a containment or has a lower bound above 0.
pub fn are_loose(classes: &[ClassData]) -> bool
    ensures { result ≡ are_loose classes.now }
{
    for class in classes {
        if !has_loose_features(class) {
            return false;
        }
    }
    true
}
