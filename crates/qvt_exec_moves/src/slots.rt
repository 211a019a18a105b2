//! What a value puts into a slot.

ghost use Rattle.std.specs.Prelude.{◌≡◌, IfOk, filter, not};
ghost use Rattle.qvt_run_rules.specs.Store.{one_item, op_of};
ghost use Rattle.qvt_ocl_words.specs.Lists.{is_null};

use qvt_base::copied::Copied;
use qvt_base::list_fault::ListFault;
use qvt_base::seq::Seq;
use qvt_ocl_lists::items::is_null;
use qvt_store::op::SetOp;
use qvt_value::value::{Value, Values};
use std::alloc::Global;
use std::slice;

/// Null is no item, and any other value one.
pub(crate) fn one_item(value: &Value) -> &[Value]
    ensures { result.now ≡ one_item value.now }
{
    if is_null(value) {
        &[]
    } else {
        slice::from_ref(value)
    }
}

/// Copies of the values that are not null.
pub(crate) fn present_items(alloc: Global, values: &[Value]) -> Result<Values, ListFault>
    ensures { IfOk result (λ kept. kept ≡ filter (λ v. not (is_null v)) values.now) }
{
    let mut kept = Seq::new(alloc);
    for value in values {
        if !is_null(value) {
            kept.push(value.copy(alloc)?)?;
        }
    }
    Ok(kept)
}

/// How an assignment writes; `adds` tells a `+=`.
pub(crate) fn op_of(adds: bool) -> SetOp
    ensures { result ≡ op_of adds }
{
    if adds { SetOp::Add } else { SetOp::Put }
}
