//! Numbers that are looked up by hash.

use indexmap::IndexMap;
use std::alloc::{AllocError, Global};
use std::hash::Hash;

/// The numbers that are kept under each key. A key without a list and one with an empty list mean the same.
#[derive(Drop)]
pub(crate) struct Table<K: Hash + Eq> {
    lists: IndexMap<K, Vec<usize>>,
}

impl<K: Hash + Eq + Copy + Drop> Table<K> {
    ghost use Rattle.std.specs.Prelude.{◌≡◌, [], ◌∷◌, ◌++◌, OnOk, if◌then◌else◌};
    ghost use Rattle.qvt_trace.specs.Tables.{kept, IsReady};

    /// No numbers. It takes no memory.
    pub fn new(alloc: Global) -> Table<K>
        ensures { (k : K) → kept K.eq result k ≡ [] }
    {
        Table {
            lists: IndexMap::new(alloc),
        }
    }

    /// The numbers under the key, in the order in which they came.
    pub fn at(&self, key: K) -> &[usize]
        ensures { result.now ≡ kept K.eq self.now key }
    {
        match self.lists.get(&key) {
            Some(list) => list.as_slice(),
            None => &[],
        }
    }

    /// Makes room for one number more under the key.
    pub fn ready(&mut self, key: K) -> Result<(), AllocError>
        ensures same { (k : K) → kept K.eq self.new k ≡ kept K.eq self.old k }
        ensures ok { OnOk result (IsReady K.eq self.new key) }
    {
        let alloc = *self.lists.allocator();
        match self.lists.get_mut(&key) {
            Some(list) => {
                list.reserve(1)?;
                Ok(())
            }
            None => {
                let list = Vec::with_capacity(alloc, 1)?;
                let Ok(_) = self.lists.insert(key, list) else {
                    return Err(AllocError);
                };
                Ok(())
            }
        }
    }

    /// Puts a number last under the key. It takes no memory.
    pub fn note(&mut self, key: K, number: usize)
        requires { IsReady K.eq self.old key }
        ensures { (k : K) → kept K.eq self.new k ≡ (if K.eq key k then kept K.eq self.old k ++ number ∷ [] else kept K.eq self.old k) }
    {
        if let Some(list) = self.lists.get_mut(&key) {
            let _ = list.push(number);
        }
    }
}
