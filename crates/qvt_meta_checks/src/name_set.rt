ghost use Rattle.std.specs.Prelude.{◌≡◌, ◌∷◌, ◌++◌, ◌<◌, [], false, length, position, IfSome, OnErr, OnOk};
ghost use Rattle.std.specs.Str.{bytes_eq};
ghost use Rattle.qvt_metamodel.specs.Names.{is_among};

use indexmap::IndexSet;
use qvt_base::list_fault::ListFault;
use qvt_base::text::Text;
use std::alloc::Global;
use std::marker::Model;

/// Names in the order in which they were put there, each once, looked up by hash.
pub struct NameSet {
    names: IndexSet<Text>,
}

impl Drop for NameSet {
    fn drop(self) {
        let NameSet { names } = self;
    }
}

impl Model for NameSet {
    ghost use Rattle.std.specs.Prelude.{List, ℕ};

    ghost Value = { List (List ℕ) };

    ghost view = { λ s. s.names.keys };
}

impl NameSet {
    /// No names. It takes no memory.
    pub fn new(alloc: Global) -> NameSet
        ensures { result ≡ [] }
    {
        NameSet {
            names: IndexSet::new(alloc),
        }
    }

    /// Whether the name is one of these.
    pub fn contains(&self, name: &Text) -> bool
        ensures { result ≡ is_among name.now self.now }
    {
        self.names.contains(name)
    }

    /// The place of the name.
    pub fn position(&self, name: &Text) -> Option<usize>
        ensures value { result ≡ position (bytes_eq name.now) self.now }
        ensures bound { IfSome result (λ place. place < length self.now) }
    {
        self.names.get_index_of(name)
    }

    /// Puts a new name last. A refused call changes nothing.
    pub fn add(&mut self, alloc: Global, name: &str) -> Result<(), ListFault>
        requires { is_among name.now self.old ≡ false }
        ensures ok { OnOk result (self.new ≡ self.old ++ name.now ∷ []) }
        ensures err { OnErr result (self.new ≡ self.old) }
    {
        match self.names.insert(Text::from_str(alloc, name)?) {
            Ok(_) => Ok(()),
            Err(_) => Err(ListFault::NoMemory),
        }
    }
}
