ghost use Rattle.std.specs.Prelude.{◌≡◌, ◌==◌, [], ◌∷◌, ◌++◌, false, position, OnOk, OnErr};
ghost use Rattle.std.specs.List.{list_any};

use indexmap::IndexSet;
use qvt_base::list_fault::ListFault;
use std::alloc::Global;
use std::marker::Model;

/// Numbers in an order of their own, each once, looked up by hash.
pub struct NumberIndex {
    keys: IndexSet<u32>,
}

impl Drop for NumberIndex {
    fn drop(self) {
        let NumberIndex { keys } = self;
    }
}

impl Model for NumberIndex {
    ghost use Rattle.std.specs.Prelude.{List, ℕ};

    ghost Value = { List ℕ };

    ghost view = { λ s. s.keys.keys };
}

impl NumberIndex {
    /// No numbers. It takes no memory.
    pub fn new(alloc: Global) -> NumberIndex
        ensures { result ≡ [] }
    {
        NumberIndex {
            keys: IndexSet::new(alloc),
        }
    }

    /// The place of the number.
    pub fn position(&self, number: u32) -> Option<usize>
        ensures { result ≡ position (λ x. number == x) self.now }
    {
        self.keys.get_index_of(&number)
    }

    /// Puts a new number last. A refused call changes nothing.
    pub fn add(&mut self, number: u32) -> Result<(), ListFault>
        requires { list_any (λ x. number == x) self.old ≡ false }
        ensures ok { OnOk result (self.new ≡ self.old ++ number ∷ []) }
        ensures err { OnErr result (self.new ≡ self.old) }
    {
        let Ok(_) = self.keys.insert(number) else {
            return Err(ListFault::NoMemory);
        };
        Ok(())
    }
}
