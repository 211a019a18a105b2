//! Names in order, looked up by hash.

ghost use Rattle.std.specs.Prelude.{◌≡◌, ℕ, List, [], ◌∷◌, ◌++◌, ◌<◌, length, position, Some, None, if◌then◌else◌, IfOk, IfSome, OnOk};
ghost use Rattle.std.specs.Map.{lookup};
ghost use Rattle.std.specs.Option.{option_or};
ghost use Rattle.std.specs.Str.{bytes_eq};
ghost use Rattle.qvt_meta_names.specs.Names.{is_among};

use qvt_base::list_fault::ListFault;
use qvt_base::lists::NameList;
use qvt_base::seq::Seq;
use qvt_base::text::Text;
use qvt_metas::name_table::NameTable;
use std::alloc::Global;
use std::marker::Model;

/// Names in the order in which they were put there; of several that are the same the first is found, by hash.
pub struct NameIndex {
    names: NameList,
    table: NameTable,
}

impl Drop for NameIndex {
    fn drop(self) {
        let NameIndex { names, table } = self;
    }
}

impl Model for NameIndex {
    ghost use Rattle.std.specs.Prelude.{List, ℕ};
    ghost use Rattle.qvt_types_paths.specs.Index.{IsIndex};

    ghost Value = { List (List ℕ) };

    ghost view = { λ i. i.names };

    ghost invariant = { λ i. IsIndex i.names i.table };
}

impl NameIndex {
    /// No names. It takes no memory.
    pub fn new(alloc: Global) -> NameIndex
        ensures { result ≡ [] }
    {
        NameIndex {
            names: Seq::new(alloc),
            table: NameTable::new(alloc),
        }
    }

    /// The names, in order.
    pub fn names(&self) -> &[Text]
        ensures { result.now ≡ self.now }
    {
        self.names.as_slice()
    }

    /// The place of the first that is this name.
    pub fn place(&self, name: &str) -> Option<u32>
        ensures value { result ≡ position (bytes_eq name.now) self.now }
        ensures bound { IfSome result (λ place. place < length self.now) }
    {
        self.table.find(name)
    }

    /// How many names there are.
    pub fn count(&self) -> u32
        ensures { result ≡ length self.now }
    {
        self.names.len() as u32
    }

    /// Whether the name is there.
    #[tactic(auto, using(crate::proofs::Places::some_position))]
    pub fn has(&self, name: &str) -> bool
        ensures { result ≡ is_among name.now self.now }
    {
        self.place(name).is_some()
    }

    /// The same with the name last. It is refused for want of memory, also where it would be the 2^32nd.
    pub fn with(self, alloc: Global, name: &str) -> Result<NameIndex, ListFault>
        ensures { IfOk result (λ all. all ≡ self ++ name.now ∷ []) }
    {
        let place = self.count();
        if place == u32::MAX {
            return Err(ListFault::NoMemory);
        }
        let NameIndex {
            mut names,
            mut table,
        } = self;
        enter(alloc, &mut table, name, place)?;
        names.push(Text::from_str(alloc, name)?)?;
        Ok(NameIndex { names, table })
    }
}

/// Enters the place of a name, unless the name is there.
fn enter(alloc: Global, table: &mut NameTable, name: &str, place: u32) -> Result<(), ListFault>
    ensures { OnOk result ((other : List ℕ) → lookup (bytes_eq other) table.new ≡ option_or (lookup (bytes_eq other) table.old) (if bytes_eq other name.now then Some place else None)) }
{
    if table.find(name).is_some() {
        return Ok(());
    }
    table.add(alloc, name, place)?;
    Ok(())
}
