//! The values of items.

ghost use Rattle.std.specs.Prelude.{◌≡◌, ◌+◌, map, IfOk};
ghost use Rattle.qvt_model.specs.Loaded.{value_at};

use crate::data::Datum;
use qvt_base::copied::Copied;
use qvt_base::list_fault::ListFault;
use qvt_base::numbers::Oid;
use qvt_base::seq::Seq;
use qvt_value::value::{Value, Values};
use std::alloc::Global;

/// The number of the object that stands at this place of its model, from 0.
pub fn numbered(first: u32, place: usize) -> Result<Oid, ListFault>
    ensures { IfOk result (λ object. object.0 ≡ first + place) }
{
    let Ok(place) = u32::try_from(place) else {
        return Err(ListFault::NoMemory);
    };
    let Some(number) = first.checked_add(place) else {
        return Err(ListFault::NoMemory);
    };
    Ok(Oid(number))
}

/// The value of an item, where the first object of its model has this number.
fn value_of(alloc: Global, first: u32, item: &Datum) -> Result<Value, ListFault>
    ensures { IfOk result (λ value. value ≡ value_at first item.now) }
{
    match item {
        Datum::Bool(truth) => Ok(Value::Bool(*truth)),
        Datum::Int(number) => Ok(Value::Int(*number)),
        Datum::Str(text) => Ok(Value::Str(text.copy(alloc)?)),
        Datum::Literal(literal) => Ok(Value::Enum(*literal)),
        Datum::Ref(place) => Ok(Value::Obj(numbered(first, *place as usize)?)),
    }
}

/// The values of the items, in order.
pub fn values_of(alloc: Global, first: u32, items: &[Datum]) -> Result<Values, ListFault>
    ensures { IfOk result (λ values. values ≡ map (value_at first) items.now) }
{
    let mut values = Seq::new(alloc);
    for item in items {
        values.push(value_of(alloc, first, item)?)?;
    }
    Ok(values)
}
