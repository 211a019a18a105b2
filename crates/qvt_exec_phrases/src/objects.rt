//! The objects that a mapping call goes over.

ghost use Rattle.std.specs.Prelude.{◌≡◌, IfOk};
ghost use Rattle.qvt_run_rules.specs.Sources.{all_objects, objects_in, present_items};

use qvt_base::list_fault::ListFault;
use qvt_base::lists::OidList;
use qvt_base::seq::Seq;
use qvt_exec_words::sources::items_of;
use qvt_ocl_lists::flat::flattened;
use qvt_value::value::Value;
use std::alloc::Global;

/// The objects among values; None where something else stands there that is not null.
#[tactic(auto, using(crate::proofs::Present::one_object))]
fn objects_of(alloc: Global, values: &[Value]) -> Result<Option<OidList>, ListFault>
    ensures { IfOk result (λ objects. objects ≡ all_objects (present_items values.now)) }
{
    let mut objects = Seq::new(alloc);
    for value in values {
        match value {
            Value::Null => {}
            Value::Obj(object) => objects.push(*object)?,
            _ => return Ok(None),
        }
    }
    Ok(Some(objects))
}

/// An object, or those of a collection down to the innermost, but for nulls. None where something else
/// stands there.
#[tactic(auto, unfolding(qvt_run_rules::specs::Sources::objects_in))]
pub fn objects_in(alloc: Global, value: Value) -> Result<Option<OidList>, ListFault>
    ensures { IfOk result (λ objects. objects ≡ objects_in value) }
{
    let items = items_of(alloc, value)?;
    let flat = flattened(alloc, items.as_slice())?;
    objects_of(alloc, flat.as_slice())
}
