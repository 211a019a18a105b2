ghost use Rattle.std.specs.Prelude.{◌≡◌, [], ◌∷◌, ◌++◌, None, OnErr, OnOk};
ghost use Rattle.std.specs.Str.{bytes_eq};
ghost use Rattle.std.specs.Map.{lookup};

use indexmap::IndexMap;
use qvt_base::list_fault::ListFault;
use std::alloc::Global;
use std::marker::Model;

/// Numbers by name, in the order in which they were put there, looked up by hash.
pub struct NameTable {
    numbers: IndexMap<String, u32>,
}

impl Drop for NameTable {
    fn drop(self) {
        let NameTable { numbers } = self;
    }
}

impl Model for NameTable {
    ghost use Rattle.std.specs.Prelude.{List, ℕ};
    ghost use Rattle.qvt_meta_names.specs.Named.{named};

    ghost Value = { List (List ℕ × ℕ) };

    ghost view = { λ t. named t.numbers.entries };
}

impl NameTable {
    /// No names. It takes no memory.
    pub fn new(alloc: Global) -> NameTable
        ensures { result ≡ [] }
    {
        NameTable {
            numbers: IndexMap::new(alloc),
        }
    }

    /// The number of this name.
    pub fn find(&self, name: &str) -> Option<u32>
        ensures { result ≡ lookup (bytes_eq name.now) self.now }
    {
        self.numbers.get(name).copied()
    }

    /// Puts a new name last. A refused call changes nothing.
    pub fn add(&mut self, alloc: Global, name: &str, number: u32) -> Result<(), ListFault>
        requires { lookup (bytes_eq name.now) self.old ≡ None }
        ensures ok { OnOk result (self.new ≡ self.old ++ (name.now, number) ∷ []) }
        ensures err { OnErr result (self.new ≡ self.old) }
    {
        let Ok(key) = String::from_str(alloc, name) else {
            return Err(ListFault::NoMemory);
        };
        let Ok(_) = self.numbers.insert(key, number) else {
            return Err(ListFault::NoMemory);
        };
        Ok(())
    }
}
