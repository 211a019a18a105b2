ghost use Rattle.std.specs.Prelude.{◌≡◌, [], ◌∷◌, ◌++◌, length, false, position, OnOk, OnErr};
ghost use Rattle.std.specs.List.{list_any};
ghost use Rattle.std.specs.Str.{bytes_eq};

use indexmap::IndexSet;
use qvt_base::list_fault::ListFault;
use std::alloc::Global;
use std::marker::Model;

/// Texts in an order of their own, each once, looked up by hash.
pub struct TextSet {
    keys: IndexSet<String>,
}

impl Drop for TextSet {
    fn drop(self) {
        let TextSet { keys } = self;
    }
}

impl Model for TextSet {
    ghost use Rattle.std.specs.Prelude.{List, ℕ, map, string_bytes};

    ghost Value = { List (List ℕ) };

    ghost view = { λ s. map string_bytes s.keys.keys };
}

impl TextSet {
    /// No texts. It takes no memory.
    pub fn new(alloc: Global) -> TextSet
        ensures { result ≡ [] }
    {
        TextSet {
            keys: IndexSet::new(alloc),
        }
    }

    pub fn len(&self) -> usize
        ensures { result ≡ length self.now }
    {
        self.keys.len()
    }

    /// Whether the text is one of these.
    pub fn contains(&self, text: &str) -> bool
        ensures { result ≡ list_any (bytes_eq text.now) self.now }
    {
        self.keys.contains(text)
    }

    /// The place of the text.
    pub fn position(&self, text: &str) -> Option<usize>
        ensures { result ≡ position (bytes_eq text.now) self.now }
    {
        self.keys.get_index_of(text)
    }

    /// Puts a new text last. A refused call changes nothing.
    pub fn add(&mut self, alloc: Global, text: &str) -> Result<(), ListFault>
        requires { list_any (bytes_eq text.now) self.old ≡ false }
        ensures ok { OnOk result (self.new ≡ self.old ++ text.now ∷ []) }
        ensures err { OnErr result (self.new ≡ self.old) }
    {
        let Ok(key) = String::from_str(alloc, text) else {
            return Err(ListFault::NoMemory);
        };
        let Ok(_) = self.keys.insert(key) else {
            return Err(ListFault::NoMemory);
        };
        Ok(())
    }
}
