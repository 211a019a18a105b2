//! Properties of objects.

ghost use Rattle.std.specs.Prelude.{◌≡◌, IfOk};
ghost use Rattle.qvt_types_steps.specs.Properties as properties;

use crate::calls::collected;
use qvt_base::list_fault::ListFault;
use qvt_base::numbers::FeatureNo;
use qvt_types_data::note::Reading;
use qvt_types_data::refusal::RefusalKind;
use qvt_types_data::ruling::{Read, Ruling};
use qvt_types_data::ty::Ty;
use qvt_types_words::metas::Metas;
use qvt_types_words::types::{feature_type, innermost};
use std::alloc::Global;

/// The feature of this name that the values of the type have, None where they have none.
pub fn feature_in(metas: &Metas, t: &Ty, name: &str) -> Option<FeatureNo>
    ensures { result ≡ properties.feature_in metas.now t.now name.now }
{
    match t {
        Ty::Class(class) => metas.feature(*class, name),
        _ => None,
    }
}

/// What is ruled of a property of this feature.
fn feature_read(
    alloc: Global,
    metas: &Metas,
    feature: Option<FeatureNo>,
) -> Result<Ruling, ListFault>
    ensures { IfOk result (λ r. r ≡ properties.feature_read metas.now feature) }
{
    match feature {
        None => Ok(Ruling::Fails(RefusalKind::UnknownName)),
        Some(feature) => {
            let t = feature_type(alloc, metas.shape(feature))?;
            Ok(Ruling::Holds(Read::plain(Reading::Feature(feature), Some(t))))
        }
    }
}

/// What is ruled of a dot without arguments.
pub fn property(
    alloc: Global,
    metas: &Metas,
    name: &str,
    source: &Option<Ty>,
) -> Result<Ruling, ListFault>
    ensures { IfOk result (λ r. r ≡ properties.property metas.now name.now source.now) }
{
    let Some(t) = source else {
        return Ok(Ruling::Silent);
    };
    let feature = feature_in(metas, innermost(t), name);
    let ruling = feature_read(alloc, metas, feature)?;
    collected(alloc, t, ruling)
}
