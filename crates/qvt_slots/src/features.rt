//! Tests of features.

ghost use Rattle.std.specs.Prelude.{◌≡◌};
ghost use Rattle.qvt_metas.specs.Metamodels.{is_containment, is_single, is_opposite, opposite, shape_of};
ghost use Rattle.qvt_slots.specs.Change.{is_container, is_linked, is_some_feature};
ghost use Rattle.qvt_slots.specs.Assign.{exceeds_bound};

use qvt_base::numbers::FeatureNo;
use qvt_metas::metas::Metas;

pub fn is_containment(metas: &Metas, feature: FeatureNo) -> bool
    ensures { result ≡ is_containment metas.now feature.0 }
{
    metas.shape(feature).containment
}

pub fn is_unique(metas: &Metas, feature: FeatureNo) -> bool
    ensures { result ≡ (shape_of metas.now feature.0).unique }
{
    metas.shape(feature).unique
}

pub fn upper(metas: &Metas, feature: FeatureNo) -> Option<u32>
    ensures { result ≡ (shape_of metas.now feature.0).upper }
{
    metas.shape(feature).upper
}

/// Whether the upper bound is 1.
pub fn is_single(metas: &Metas, feature: FeatureNo) -> bool
    ensures { result ≡ is_single metas.now feature.0 }
{
    match upper(metas, feature) {
        None => false,
        Some(most) => most == 1,
    }
}

/// Whether the second feature is the opposite of the first.
pub fn is_opposite(metas: &Metas, feature: FeatureNo, other: FeatureNo) -> bool
    ensures { result ≡ is_opposite metas.now feature.0 other.0 }
{
    match metas.opposite(feature) {
        None => false,
        Some(opposite) => opposite.0 == other.0,
    }
}

/// Whether the opposite is a containment.
pub fn is_container(metas: &Metas, feature: FeatureNo) -> bool
    ensures { result ≡ is_container metas.now feature.0 }
{
    match metas.opposite(feature) {
        None => false,
        Some(opposite) => is_containment(metas, opposite),
    }
}

fn has_opposite(metas: &Metas, feature: FeatureNo) -> bool
    ensures { result ≡ is_some_feature (opposite metas.now feature.0) }
{
    metas.opposite(feature).is_some()
}

/// Whether it is a containment or has an opposite.
pub fn is_linked(metas: &Metas, feature: FeatureNo) -> bool
    ensures { result ≡ is_linked metas.now feature.0 }
{
    is_containment(metas, feature) || has_opposite(metas, feature)
}

/// Whether so many items pass the upper bound.
pub fn exceeds_bound(count: usize, upper: Option<u32>) -> bool
    ensures { result ≡ exceeds_bound count upper }
{
    match upper {
        None => false,
        Some(most) => count > most as usize,
    }
}
