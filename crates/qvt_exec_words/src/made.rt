//! Collections made of the values of phrases, within the limit.

ghost use Rattle.std.specs.Prelude.{◌≡◌, IfOk};
ghost use Rattle.qvt_ocl_words.specs.Lists.{flattened};
ghost use Rattle.qvt_value.specs.Limits.{built};

use qvt_base::list_fault::ListFault;
use qvt_base::numbers::Place;
use qvt_ocl_lists::flat::flattened;
use qvt_value::make::make_within;
use qvt_value::value::{Kind, Value, Values};
use std::alloc::Global;

/// The collection of the kind that is made of the items, or TooLarge.
pub fn built(alloc: Global, place: Place, kind: Kind, items: Values) -> Result<Value, ListFault>
    ensures { IfOk result (λ collection. collection ≡ built place kind items) }
{
    match make_within(alloc, place, kind, items) {
        Ok(collection) => Ok(collection),
        Err(_) => Err(ListFault::NoMemory),
    }
}

/// The same of the innermost items.
pub fn built_flat(
    alloc: Global,
    place: Place,
    kind: Kind,
    items: &[Value],
) -> Result<Value, ListFault>
    ensures { IfOk result (λ collection. collection ≡ built place kind (flattened items.now)) }
{
    built(alloc, place, kind, flattened(alloc, items)?)
}
