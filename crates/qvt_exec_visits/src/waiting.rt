//! The items that a closure is still to visit.

ghost use Rattle.std.specs.Prelude.{◌≡◌, [], ◌∷◌, ◌++◌, IfOk, OnOk, MatchOption};
ghost use Rattle.qvt_run_rules.specs.Sources.{items_of, present_items};

use qvt_base::list_fault::ListFault;
use qvt_ocl_lists::items::{is_null, reversed};
use qvt_value::copy::copies;
use qvt_value::value::{Value, Values};
use std::alloc::Global;
use std::marker::Model;

/// Items that are to be visited. They are kept the other way round, so that the next one is taken off
/// the end.
pub struct Waiting {
    items: Values,
}

impl Drop for Waiting {
    fn drop(self) {
        let Waiting { items } = self;
    }
}

impl Model for Waiting {
    ghost use Rattle.std.specs.Prelude.{List, reverse};
    ghost use Rattle.std.specs.Coded.{codes};
    ghost use Rattle.qvt_value.specs.contracts.value.Value as value;
    ghost use Rattle.qvt_value.specs.declared.value.Value.{Value as Item};

    ghost Value = { List Item };

    ghost coded = { Prim.hlevel (codes, value.the_row.coded) };

    ghost view = { λ w. reverse w.items };
}

impl Waiting {
    /// Copies of the items.
    pub fn of(alloc: Global, items: &[Value]) -> Result<Waiting, ListFault>
        ensures { IfOk result (λ waiting. waiting ≡ items.now) }
    {
        let items = reversed(copies(alloc, items)?);
        Ok(Waiting { items })
    }

    /// Takes the first item off.
    pub fn pop(&mut self) -> Option<Value>
        ensures { MatchOption result ((self.old ≡ []) × (self.new ≡ [])) (λ first. self.old ≡ first ∷ self.new) }
    {
        self.items.pop()
    }

    /// Puts the item first.
    fn push(&mut self, item: Value) -> Result<(), ListFault>
        ensures { OnOk result (self.new ≡ item ∷ self.old) }
    {
        self.items.push(item)
    }

    /// Puts the item first, unless it is null.
    fn push_present(&mut self, item: Value) -> Result<(), ListFault>
        ensures { OnOk result (self.new ≡ present_items (item ∷ []) ++ self.old) }
    {
        if is_null(&item) {
            return Ok(());
        }
        self.push(item)
    }

    /// Puts the items first that are not null, in their order.
    fn push_all(&mut self, items: Values) -> Result<(), ListFault>
        ensures { OnOk result (self.new ≡ present_items items ++ self.old) }
    {
        let mut rest = items;
        while let Some(item) = rest.pop() {
            self.push_present(item)?;
        }
        Ok(())
    }

    /// Puts the items of the value first that are not null, in their order.
    pub(crate) fn push_items(&mut self, value: Value) -> Result<(), ListFault>
        ensures { OnOk result (self.new ≡ present_items (items_of value) ++ self.old) }
    {
        match value.into_items() {
            Ok((_, items)) => self.push_all(items),
            Err(single) => self.push_present(single),
        }
    }
}
