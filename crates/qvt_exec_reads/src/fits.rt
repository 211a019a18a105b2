//! Whether an object can be made, and a slot written.

ghost use Rattle.std.specs.Prelude.{◌≡◌, IsTrue};
ghost use Rattle.qvt_store.specs.Types.{IsAssignable};
ghost use Rattle.qvt_store.specs.Sound.{IsClassFor};
ghost use Rattle.qvt_run_rules.specs.Store.{is_class_for, are_fit};

use qvt_base::numbers::{ClassNo, FeatureNo, Oid};
use qvt_checks::conditions;
use qvt_checks::store::Store;
use qvt_value::value::Value;

/// Whether objects of the class can be made in the extent.
pub fn is_class_for(store: &Store, class: ClassNo, extent: u32) -> bool
    ensures value { result ≡ is_class_for store.now class.0 extent }
    ensures class { IsTrue result → IsClassFor store.now class.0 extent }
{
    let can = conditions::is_class_for(store, class, extent);
    can
}

/// Whether the slot is there, and the values are of its type.
pub fn are_fit(store: &Store, object: Oid, feature: FeatureNo, values: &[Value]) -> bool
    ensures value { result ≡ are_fit store.now object.0 feature.0 values.now }
    ensures assignable { IsTrue result → IsAssignable store.now object.0 feature.0 values.now }
{
    let can = conditions::can_assign(store, object, feature, values);
    can
}
