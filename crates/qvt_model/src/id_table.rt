ghost use Rattle.std.specs.Prelude.{◌≡◌, ◌==◌, ℕ, [], option_map, Some, if◌then◌else◌, OnOk, OnErr};
ghost use Rattle.qvt_model.specs.IdTables.{id_in, with_id, IsReached};

use qvt_base::list_fault::ListFault;
use qvt_base::numbers::Oid;
use qvt_base::text::Text;
use std::alloc::Global;
use std::marker::Model;

/// The ids that the objects of a store have in their files.
pub struct IdTable {
    ids: Vec<Option<Text>>,
}

impl Drop for IdTable {
    fn drop(self) {
        let IdTable { ids } = self;
    }
}

impl Model for IdTable {
    ghost use Rattle.std.specs.Prelude.{List, ℕ, Option};

    ghost Value = { List (Option (List ℕ)) };

    ghost view = { λ t. t.ids.items };
}

impl IdTable {
    /// A table that tells no ids. It takes no memory.
    pub fn new(alloc: Global) -> IdTable
        ensures { result ≡ [] }
    {
        IdTable {
            ids: Vec::new(alloc),
        }
    }

    /// The id of an object in its file, None exactly for an object that no loading put there. It
    /// takes no memory.
    pub fn id(&self, object: Oid) -> Option<&str>
        ensures { option_map (λ id. id.now) result ≡ id_in self.now object.0 }
    {
        let at = object.0 as usize;
        if at >= self.ids.len() {
            return None;
        }
        match &self.ids[at] {
            Some(id) => Some(id.as_str()),
            None => None,
        }
    }

    /// Tells the id of an object in its file. A refused call changes nothing.
    pub(crate) fn set(&mut self, object: Oid, id: Text) -> Result<(), ListFault>
        ensures ok { OnOk result ((x : ℕ) → id_in self.new x ≡ (if x == object.0 then Some id else id_in self.old x)) }
        ensures exact { OnOk result (self.new ≡ with_id self.old object.0 id) }
        ensures err { OnErr result (self.new ≡ self.old) }
    {
        let at = object.0 as usize;
        reach(&mut self.ids, at + 1)?;
        self.ids[at] = Some(id);
        Ok(())
    }
}

/// Makes room for so many ids. A refused call changes nothing.
fn reach(ids: &mut Vec<Option<Text>>, count: usize) -> Result<(), ListFault>
    ensures ok { OnOk result (IsReached ids.old.items ids.new.items count) }
    ensures err { OnErr result (ids.new.items ≡ ids.old.items) }
{
    let before = ids.len();
    for _place in before..count {
        let Ok(()) = ids.push(None) else {
            ids.truncate(before);
            return Err(ListFault::NoMemory);
        };
    }
    Ok(())
}
