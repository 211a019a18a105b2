//! The items that a closure has visited.

ghost use Rattle.std.specs.Prelude.{◌≡◌, [], IfOk, OnOk};
ghost use Rattle.qvt_ocl_words.specs.Lists.{has};
ghost use Rattle.qvt_exec_visits.specs.Visited.{with_item};

use indexmap::IndexSet;
use qvt_base::list_fault::ListFault;
use qvt_base::seq::Seq;
use qvt_value::value::{Value, Values};
use std::alloc::Global;
use std::marker::Model;

/// Items in the order in which they were visited, looked up by hash.
pub struct Reached {
    items: IndexSet<Value>,
}

impl Drop for Reached {
    fn drop(self) {
        let Reached { items } = self;
    }
}

impl Model for Reached {
    ghost use Rattle.std.specs.Prelude.{List};
    ghost use Rattle.std.specs.Coded.{codes};
    ghost use Rattle.qvt_value.specs.contracts.value.Value as value;
    ghost use Rattle.qvt_value.specs.declared.value.Value.{Value as Item};

    ghost Value = { List Item };

    ghost coded = { Prim.hlevel (codes, value.the_row.coded) };

    ghost view = { λ s. s.items.keys };
}

impl Reached {
    /// No items. It takes no memory.
    pub fn new(alloc: Global) -> Reached
        ensures { result ≡ [] }
    {
        Reached {
            items: IndexSet::new(alloc),
        }
    }

    /// Whether the item was visited.
    pub fn has(&self, item: &Value) -> bool
        ensures { result ≡ has self.now item.now }
    {
        self.items.contains(item)
    }

    /// The item is visited. It stays where it is if it was visited before.
    pub(crate) fn add(&mut self, item: Value) -> Result<(), ListFault>
        ensures { OnOk result (self.new ≡ with_item self.old item) }
    {
        let Ok(_) = self.items.insert(item) else {
            return Err(ListFault::NoMemory);
        };
        Ok(())
    }

    /// The items as a list.
    pub fn into_items(self, alloc: Global) -> Result<Values, ListFault>
        ensures { IfOk result (λ items. items ≡ self) }
    {
        let Reached { items } = self;
        list_of(alloc, items)
    }
}

fn list_of(alloc: Global, set: IndexSet<Value>) -> Result<Values, ListFault>
    ensures { IfOk result (λ items. items ≡ set.keys) }
{
    let mut items = Seq::new(alloc);
    for item in set {
        items.push(item)?;
    }
    Ok(items)
}
