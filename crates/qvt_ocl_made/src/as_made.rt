//! A test of values of which it is not known that they are as made.

ghost use Rattle.std.specs.Prelude.{◌≡◌, ◌↔◌, All, IfOk, IsTrue};
ghost use Rattle.qvt_value.specs.Make.{made};
ghost use Rattle.qvt_ocl_made.specs.AsMade.{IsAsMade};

use qvt_base::list_fault::ListFault;
use qvt_value::copy::copies;
use qvt_value::items::is_collection_of;
use qvt_value::make::make;
use qvt_value::value::{Kind, Value};
use std::alloc::Global;

/// Whether the list is made of itself.
fn is_made_of_itself(alloc: Global, kind: Kind, items: &[Value]) -> Result<bool, ListFault>
    ensures { IfOk result (λ holds. IsTrue holds ↔ (made kind items.now ≡ items.now)) }
{
    match make(alloc, kind, copies(alloc, items)?) {
        Ok(again) => Ok(is_collection_of(kind, items, &again)),
        Err(_) => Err(ListFault::NoMemory),
    }
}

/// Whether the value is as made. It takes the memory and the time of making each of its collections again.
#[cycle(as_made)]
pub fn is_as_made(alloc: Global, value: &Value) -> Result<bool, ListFault>
    ensures { IfOk result (λ holds. IsTrue holds ↔ IsAsMade value.now) }
{
    match value {
        Value::Coll(kind, items) => {
            let holds = is_made_of_itself(alloc, *kind, items.as_slice())?;
            let all = are_as_made(alloc, items.as_slice())?;
            Ok(holds && all)
        }
        _ => Ok(true),
    }
}

/// Whether all the values are as made.
#[cycle(as_made)]
pub fn are_as_made(alloc: Global, values: &[Value]) -> Result<bool, ListFault>
    ensures { IfOk result (λ hold. IsTrue hold ↔ All IsAsMade values.now) }
{
    for value in values {
        if !is_as_made(alloc, value)? {
            return Ok(false);
        }
    }
    Ok(true)
}
