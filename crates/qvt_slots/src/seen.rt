//! Values that were noted.

ghost use Rattle.std.specs.Prelude.{◌≡◌, [], IfOk, OnOk, OnErr};
ghost use Rattle.std.specs.List.{list_any};
ghost use Rattle.qvt_value.specs.Kept.{is_same};
ghost use Rattle.qvt_value.specs.Order.{order_of};
ghost use Rattle.qvt_slots.specs.Noted.{with_noted, NotesValue};

use indexmap::IndexSet;
use qvt_base::list_fault::ListFault;
use qvt_value::value::Value;
use std::alloc::Global;
use std::marker::Model;

/// Values that were noted, looked up by hash.
pub struct Seen<'a> {
    keys: IndexSet<&'a Value>,
}

impl Drop for Seen<'_> {
    fn drop(self) {
        let Seen { keys } = self;
    }
}

impl<'a> Model for Seen<'a> {
    ghost use Rattle.std.specs.Prelude.{List, map};
    ghost use Rattle.std.specs.Coded.{codes};
    ghost use Rattle.qvt_value.specs.contracts.value.Value as value;
    ghost use Rattle.qvt_value.specs.declared.value.Value.{Value as Item};

    ghost Value = { List Item };

    ghost coded = { Prim.hlevel (codes, value.the_row.coded) };

    ghost view = { λ s. map (λ value. value.now) s.keys.keys };
}

impl<'a> Seen<'a> {
    /// None yet. It takes no memory.
    pub fn new(alloc: Global) -> Seen<'a>
        ensures { result ≡ [] }
    {
        Seen {
            keys: IndexSet::new(alloc),
        }
    }

    /// Notes a value, and tells whether an equal one was noted before. A refused call
    /// changes nothing.
    pub fn note(&mut self, value: &'a Value) -> Result<bool, ListFault>
        ensures before { IfOk result (λ before. before ≡ list_any (is_same order_of value.now) self.old) }
        ensures noted { OnOk result (NotesValue self.old self.new value.now) }
        ensures exact { OnOk result (self.new ≡ with_noted self.old value.now) }
        ensures err { OnErr result (self.new ≡ self.old) }
    {
        match self.keys.insert(value) {
            Ok(new) => Ok(!new),
            Err(_) => Err(ListFault::NoMemory),
        }
    }
}
