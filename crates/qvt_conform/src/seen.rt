//! Items that were seen.

ghost use Rattle.std.specs.Prelude.{◌≡◌, [], ◌∷◌, ◌++◌, not, true, false, IfOk, OnErr};
ghost use Rattle.std.specs.List.{list_any};
ghost use Rattle.qvt_conform.specs.Items.{same_item};

use indexmap::IndexSet;
use qvt_base::list_fault::ListFault;
use qvt_model::data::Datum;
use std::alloc::Global;
use std::marker::Model;

/// Items that were seen, looked up by hash.
pub struct SeenItems<'a> {
    keys: IndexSet<&'a Datum>,
}

impl Drop for SeenItems<'_> {
    fn drop(self) {
        let SeenItems { keys } = self;
    }
}

impl<'a> Model for SeenItems<'a> {
    ghost use Rattle.std.specs.Prelude.{List, map};
    ghost use Rattle.qvt_model.specs.declared.data.Datum.{Datum};

    ghost Value = { List Datum };

    ghost view = { λ s. map (λ item. item.now) s.keys.keys };
}

impl<'a> SeenItems<'a> {
    /// None yet. It takes no memory.
    pub fn new(alloc: Global) -> SeenItems<'a>
        ensures { result ≡ [] }
    {
        SeenItems {
            keys: IndexSet::new(alloc),
        }
    }

    /// Puts an item last that was not seen. It tells whether it was not. One that was seen, and a refused
    /// call, change nothing.
    pub fn add(&mut self, item: &'a Datum) -> Result<bool, ListFault>
        ensures new { IfOk result (λ b. b ≡ not (list_any (same_item item.now) self.old)) }
        ensures added { IfOk result (λ b. b ≡ true → self.new ≡ self.old ++ item.now ∷ []) }
        ensures same { IfOk result (λ b. b ≡ false → self.new ≡ self.old) }
        ensures err { OnErr result (self.new ≡ self.old) }
    {
        match self.keys.insert(item) {
            Ok(new) => Ok(new),
            Err(_) => Err(ListFault::NoMemory),
        }
    }
}
