ghost use Rattle.std.specs.Prelude.{◌≡◌, IsTrue};
ghost use Rattle.qvt_store.specs.Contents.{is_live, is_extent, class_of};
ghost use Rattle.qvt_metas.specs.Metamodels.{features_of, has_feature};
ghost use Rattle.qvt_conform.specs.LowerBounds.{is_low, low_feature, low_of};
ghost use Rattle.qvt_conform.specs.Results.{err_of};

use crate::fault::LowFault;
use qvt_base::numbers::{FeatureNo, Oid};
use qvt_store::store::Store;

/// Whether the object has too few items for the feature.
fn is_low(store: &Store, object: Oid, feature: FeatureNo) -> bool
    requires live { IsTrue (is_live store.now object.0) }
    requires there { IsTrue (has_feature store.now.metas (class_of store.now object.0) feature.0) }
    ensures { result ≡ is_low store.now object.0 feature.0 }
{
    store.slot(object, feature).len() < store.metas().shape(feature).lower as usize
}

/// The first feature of the object's class that has too few items.
#[tactic(auto, using(crate::proofs::Lows::among_at))]
fn low_feature(store: &Store, object: Oid) -> Option<LowFault>
    requires live { IsTrue (is_live store.now object.0) }
    ensures { result ≡ low_feature store.now object (features_of store.now.metas (class_of store.now object.0)) }
{
    let metas = store.metas();
    for feature in metas.features(store.class_of(object)) {
        if is_low(store, object, *feature) {
            return Some(LowFault {
                object,
                feature: *feature,
            });
        }
    }
    None
}

/// The first object of the extent, and the first of its features, with fewer items than the lower bound. It takes no memory.
#[tactic(auto, using(crate::proofs::Lows::member_is_live))]
pub fn lower_bounds(store: &Store, extent: u32) -> Result<(), LowFault>
    requires { IsTrue (is_extent store.now extent) }
    ensures { err_of result ≡ low_of store.now extent }
{
    for object in store.extent(extent) {
        if let Some(fault) = low_feature(store, *object) {
            return Err(fault);
        }
    }
    Ok(())
}
