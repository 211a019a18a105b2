//! Items that are lent from where they stand.

ghost use Rattle.std.specs.Prelude.{◌≡◌, IfOk};
ghost use Rattle.qvt_value.specs.declared.value.Value.TheViews.{Coll};
ghost use Rattle.qvt_value.specs.Items.{stands_for};
ghost use Rattle.qvt_value.specs.Kept.{is_same};
ghost use Rattle.qvt_value.specs.Order.{order_of};

use crate::copy::copies;
use crate::value::{Kind, Value};
use qvt_base::list_fault::ListFault;
use std::alloc::Global;

/// A collection whose items are lent from where they stand, or a value that was made.
#[derive(Debug)]
pub enum Items<'a> {
    Lent(Kind, &'a [Value]),
    Made(Value),
}

impl<'a> Drop for Items<'a> {
    fn drop(self) {
        match self {
            Items::Lent(kind, items) => {}
            Items::Made(value) => {}
        }
    }
}

impl<'a> Items<'a> {
    /// The value that they stand for. Lent items are copied.
    pub fn into_value(self, alloc: Global) -> Result<Value, ListFault>
        ensures { IfOk result (λ value. value ≡ stands_for self.entry) }
    {
        match self {
            Items::Lent(kind, items) => Ok(Value::Coll(kind, copies(alloc, items)?)),
            Items::Made(value) => Ok(value),
        }
    }
}

/// Whether the value is the collection of the kind with these items.
#[tactic(auto, using(crate::proofs::SameItems::same_items))]
pub fn is_collection_of(kind: Kind, items: &[Value], value: &Value) -> bool
    ensures { result ≡ is_same order_of (Coll kind items.now) value.now }
{
    match value {
        Value::Coll(own, others) => kind == *own && items.cmp(others.as_slice()).is_eq(),
        _ => false,
    }
}
