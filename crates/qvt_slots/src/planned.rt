//! Writes of slots that are looked up by their slots.

ghost use Rattle.std.specs.Prelude.{◌≡◌, ◌++◌, ◌∷◌, [], List, length, drop, OnOk, OnErr};
ghost use Rattle.qvt_slots.specs.declared.commit.Write.{Write};
ghost use Rattle.qvt_slots.specs.Listed.{listed, key_of, AreKeysOf};

use crate::commit::Write;
use indexmap::IndexSet;
use qvt_base::list_fault::ListFault;
use qvt_base::numbers::{FeatureNo, Oid};
use std::alloc::Global;
use std::marker::Model;

/// How many writes are looked at one by one. Those after them are looked up by hash.
const FEW: usize = 8;

/// A slot, by the numbers of its object and of its feature.
#[derive(Clone, Copy, PartialEq, Eq, Hash)]
pub struct SlotKey {
    pub object: u32,
    pub feature: u32,
}

/// A list of writes.
pub struct Planned {
    writes: Vec<Write>,
    later: IndexSet<SlotKey>,
}

impl Drop for Planned {
    fn drop(self) {
        let Planned { writes, later } = self;
    }
}

impl Model for Planned {
    ghost use Rattle.std.specs.Prelude.{List, drop};
    ghost use Rattle.qvt_slots.specs.declared.commit.Write.{Write};
    ghost use Rattle.qvt_slots.specs.Listed.{AreKeysOf};
    ghost use Rattle.std.specs.Coded.{codes};
    ghost use Rattle.qvt_value.specs.contracts.value.Value as value;

    ghost Value = { List Write };

    ghost coded = { Prim.hlevel (codes, value.the_row.coded) };

    ghost view = { λ p. p.writes.items };

    ghost invariant = { λ p. AreKeysOf p.later.keys (drop 8 p.writes.items) };
}

impl Planned {
    /// No writes. It takes no memory.
    pub fn new(alloc: Global) -> Planned
        ensures { result ≡ [] }
    {
        Planned {
            writes: Vec::new(alloc),
            later: IndexSet::new(alloc),
        }
    }

    /// Whether one of the writes is of this slot.
    pub fn holds(&self, object: Oid, feature: FeatureNo) -> bool
        ensures { result ≡ listed self.now object.0 feature.0 }
    {
        if self.writes.len() <= FEW {
            return is_listed(self.writes.as_slice(), object, feature);
        }
        let (first, _) = self.writes.as_slice().split_at(FEW);
        is_listed(first, object, feature)
            || self.later.contains(&SlotKey {
                object: object.0,
                feature: feature.0,
            })
    }

    /// Puts a write last. A refused call changes nothing.
    pub fn push(&mut self, write: Write) -> Result<(), ListFault>
        ensures ok { OnOk result (self.new ≡ self.old ++ write ∷ []) }
        ensures err { OnErr result (self.new ≡ self.old) }
    {
        let count = self.writes.len();
        let key = SlotKey {
            object: write.object.0,
            feature: write.feature.0,
        };
        let Ok(()) = self.writes.push(write) else {
            return Err(ListFault::NoMemory);
        };
        let Ok(()) = note_later(&mut self.later, count, key) else {
            self.writes.truncate(count);
            return Err(ListFault::NoMemory);
        };
        Ok(())
    }

    /// Gives the writes back. It takes no memory.
    pub fn into_vec(self) -> Vec<Write>
        ensures { result.items ≡ self }
    {
        let Planned { writes, later: _ } = self;
        writes
    }
}

fn is_listed(writes: &[Write], object: Oid, feature: FeatureNo) -> bool
    ensures { result ≡ listed writes.now object.0 feature.0 }
{
    writes.iter().any(|write| object.0 == write.object.0 && feature.0 == write.feature.0)
}

/// Notes the slot of a write that is put after so many.
fn note_later(later: &mut IndexSet<SlotKey>, count: usize, key: SlotKey) -> Result<(), ListFault>
    ensures ok { (ws : List Write) (w : Write) → length ws ≡ count → key ≡ key_of w → AreKeysOf later.old.keys (drop 8 ws) → OnOk result (AreKeysOf later.new.keys (drop 8 (ws ++ w ∷ []))) }
    ensures err { OnErr result (later.new.keys ≡ later.old.keys) }
{
    if count < FEW {
        return Ok(());
    }
    match later.insert(key) {
        Ok(_) => Ok(()),
        Err(_) => Err(ListFault::NoMemory),
    }
}
