//! Numbers, each of them once.

ghost use Rattle.std.specs.Prelude.{◌≡◌, [], OnErr, OnOk};
ghost use Rattle.qvt_meaning.specs.Program.{with_number};
ghost use Rattle.qvt_exec_resolves.specs.Numbers.{has};

use indexmap::IndexSet;
use qvt_base::list_fault::ListFault;
use std::alloc::Global;
use std::marker::Model;

/// Numbers in the order in which they were put there, each once, looked up by hash.
pub struct NumberSet {
    keys: IndexSet<u32>,
}

impl Drop for NumberSet {
    fn drop(self) {
        let NumberSet { keys } = self;
    }
}

impl Model for NumberSet {
    ghost use Rattle.std.specs.Prelude.{List, ℕ};

    ghost Value = { List ℕ };

    ghost view = { λ s. s.keys.keys };
}

impl NumberSet {
    /// No numbers. It takes no memory.
    pub fn new(alloc: Global) -> NumberSet
        ensures { result ≡ [] }
    {
        NumberSet {
            keys: IndexSet::new(alloc),
        }
    }

    /// Whether the number is one of these.
    #[tactic(auto, using(crate::proofs::Numbers::held))]
    pub fn has(&self, number: u32) -> bool
        ensures { result ≡ has self.now number }
    {
        self.keys.contains(&number)
    }

    /// Puts the number last, unless it is there. A refused call changes nothing.
    #[tactic(auto, using(crate::proofs::Numbers::put))]
    pub fn add(&mut self, number: u32) -> Result<(), ListFault>
        ensures ok { OnOk result (self.new ≡ with_number self.old number) }
        ensures err { OnErr result (self.new ≡ self.old) }
    {
        match self.keys.insert(number) {
            Ok(_) => Ok(()),
            Err(_) => Err(ListFault::NoMemory),
        }
    }

    /// The numbers, in order.
    pub fn as_slice(&self) -> &[u32]
        ensures { result.now ≡ self.now }
    {
        self.keys.as_slice()
    }
}
