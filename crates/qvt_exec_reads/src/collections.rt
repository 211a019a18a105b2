//! Collections within the limits of values.

ghost use Rattle.std.specs.Prelude.{◌≡◌, IfOk};
ghost use Rattle.qvt_value.specs.Limits.{built};

use qvt_base::list_fault::ListFault;
use qvt_base::numbers::Place;
use qvt_value::make::make_within;
use qvt_value::value::{Kind, Value, Values};
use std::alloc::Global;

/// The collection of the kind that the items make, or TooLarge.
pub(crate) fn built(
    alloc: Global,
    place: Place,
    kind: Kind,
    items: Values,
) -> Result<Value, ListFault>
    ensures { IfOk result (λ value. value ≡ built place kind items) }
{
    match make_within(alloc, place, kind, items) {
        Ok(value) => Ok(value),
        Err(_) => Err(ListFault::NoMemory),
    }
}
