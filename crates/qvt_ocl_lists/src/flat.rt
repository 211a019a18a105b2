//! Collections made flat.

ghost use Rattle.std.specs.Prelude.{◌≡◌, ◌++◌, IfOk, OnOk};
ghost use Rattle.qvt_ocl_words.specs.Lists.{innermost, flattened};

use qvt_base::copied::Copied;
use qvt_base::list_fault::ListFault;
use qvt_base::seq::Seq;
use qvt_value::value::{Value, Values};
use std::alloc::Global;

#[cycle(flatten)]
fn push_innermost(value: &Value, alloc: Global, out: &mut Values) -> Result<(), ListFault>
    ensures { OnOk result (out.new ≡ out.old ++ innermost value.now) }
{
    match value {
        Value::Coll(_, items) => push_flattened(items.as_slice(), alloc, out),
        other => out.push(other.copy(alloc)?),
    }
}

#[cycle(flatten)]
fn push_flattened(values: &[Value], alloc: Global, out: &mut Values) -> Result<(), ListFault>
    ensures { OnOk result (out.new ≡ out.old ++ flattened values.now) }
{
    for value in values {
        push_innermost(value, alloc, out)?;
    }
    Ok(())
}

/// Copies of the innermost items, in order.
pub fn flattened(alloc: Global, values: &[Value]) -> Result<Values, ListFault>
    ensures { IfOk result (λ all. all ≡ flattened values.now) }
{
    let mut all = Seq::new(alloc);
    push_flattened(values, alloc, &mut all)?;
    Ok(all)
}
