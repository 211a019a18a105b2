//! Properties of objects (OCL 2.4, 7.5.3).

ghost use Rattle.std.specs.Prelude.{◌≡◌, IfOk};
ghost use Rattle.qvt_run_rules.specs.Store.{feature_kind, property, single, slot_value};

use crate::collections::built;
use qvt_base::copied::Copied;
use qvt_base::list_fault::ListFault;
use qvt_base::numbers::{FeatureNo, Oid, Place};
use qvt_checks::conditions::is_slot;
use qvt_checks::store::Store;
use qvt_metas::info::FeatureShape;
use qvt_store::features::is_single;
use qvt_store::metas::Metas;
use qvt_value::copy::copies;
use qvt_value::limits::limited;
use qvt_value::value::{Kind, Value};
use std::alloc::Global;

/// The kind of collection that a property with several values is.
fn feature_kind(shape: FeatureShape) -> Kind
    ensures { result ≡ feature_kind shape }
{
    match (shape.ordered, shape.unique) {
        (true, true) => Kind::OrderedSet,
        (true, false) => Kind::Sequence,
        (false, true) => Kind::Set,
        (false, false) => Kind::Bag,
    }
}

/// A copy of the first value, or null.
fn single(alloc: Global, values: &[Value]) -> Result<Value, ListFault>
    ensures { IfOk result (λ value. value ≡ single values.now) }
{
    match values.first() {
        None => Ok(Value::Null),
        Some(value) => value.copy(alloc),
    }
}

/// What a slot of the feature with this list is as a value.
#[tactic(auto, unfolding(qvt_value::specs::Limits::built))]
fn slot_value(
    alloc: Global,
    place: Place,
    metas: &Metas,
    feature: FeatureNo,
    values: &[Value],
) -> Result<Value, ListFault>
    ensures { IfOk result (λ value. value ≡ slot_value place metas.now feature.0 values.now) }
{
    if is_single(metas, feature) {
        let value = single(alloc, values)?;
        return Ok(limited(place, value));
    }
    let kind = feature_kind(metas.shape(feature));
    built(alloc, place, kind, copies(alloc, values)?)
}

/// The property of an object, None where the object is not there or its class lacks the feature.
#[tactic(auto, unfolding(qvt_run_rules::specs::Store::property))]
pub fn property(
    alloc: Global,
    place: Place,
    store: &Store,
    object: Oid,
    feature: FeatureNo,
) -> Result<Option<Value>, ListFault>
    ensures { IfOk result (λ value. value ≡ property place store.now object.0 feature.0) }
{
    if !is_slot(store, object, feature) {
        return Ok(None);
    }
    let values = store.slot(object, feature);
    let value = slot_value(alloc, place, store.metas(), feature, values)?;
    Ok(Some(value))
}
