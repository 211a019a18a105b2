//! The first places of pairs of a class and a number, looked up by hash.

ghost use Rattle.std.specs.Prelude.{◌≡◌, ◌++◌, ◌∷◌, [], None, Some, ◌<◌, if◌then◌else◌, IfOk, OnOk};
ghost use Rattle.std.specs.Map.{lookup};
ghost use Rattle.std.specs.Option.{option_or};
ghost use Rattle.qvt_types_groups.specs.Keys.{same_key, is_key, FindsFirst};

use indexmap::IndexMap;
use qvt_base::list_fault::ListFault;
use qvt_base::numbers::ClassNo;
use std::alloc::Global;
use std::marker::Model;

/// A class, and a number that tells its units apart.
#[derive(Clone, Copy, PartialEq, Eq, Hash)]
pub struct ClassKey {
    pub class: ClassNo,
    pub number: usize,
}

/// Places by class and number, looked up by hash.
pub struct ClassTable {
    places: IndexMap<ClassKey, u32>,
}

impl Drop for ClassTable {
    fn drop(self) {
        let ClassTable { places } = self;
    }
}

impl Model for ClassTable {
    ghost use Rattle.std.specs.Prelude.{List, ℕ};
    ghost use Rattle.qvt_types_groups.specs.declared.class_table.ClassKey.{ClassKey};

    ghost Value = { List (ClassKey × ℕ) };

    ghost view = { λ t. t.places.entries };
}

impl ClassTable {
    ghost use Rattle.qvt_types_groups.specs.declared.class_table.ClassKey.{ClassKey};

    /// No places. It takes no memory.
    fn new(alloc: Global) -> ClassTable
        ensures { result ≡ [] }
    {
        ClassTable {
            places: IndexMap::new(alloc),
        }
    }

    /// The place that the pair has.
    pub fn find(&self, key: ClassKey) -> Option<u32>
        ensures { result ≡ lookup (same_key key) self.now }
    {
        self.places.get(&key).copied()
    }

    /// Puts a new pair last.
    fn add(&mut self, key: ClassKey, place: u32) -> Result<(), ListFault>
        requires { lookup (same_key key) self.old ≡ None }
        ensures { OnOk result (self.new ≡ self.old ++ (key, place) ∷ []) }
    {
        let Ok(_) = self.places.insert(key, place) else {
            return Err(ListFault::NoMemory);
        };
        Ok(())
    }

    /// Enters the place of a pair, unless it has one.
    fn enter(&mut self, key: ClassKey, place: u32) -> Result<(), ListFault>
        ensures { OnOk result ((k : ClassKey) → lookup (same_key k) self.new ≡ option_or (lookup (same_key k) self.old) (if same_key k key then Some place else None)) }
    {
        if self.find(key).is_some() {
            return Ok(());
        }
        self.add(key, place)?;
        Ok(())
    }

    /// The same of a unit that may have no pair.
    fn enter_if(&mut self, key: Option<ClassKey>, place: u32) -> Result<(), ListFault>
        ensures { OnOk result ((k : ClassKey) → lookup (same_key k) self.new ≡ option_or (lookup (same_key k) self.old) (if is_key k key then Some place else None)) }
    {
        match key {
            None => Ok(()),
            Some(key) => self.enter(key, place),
        }
    }

    /// The first place of each pair. It is refused as out of memory where the places do not fit 32 bits.
    pub fn of(alloc: Global, keys: &[Option<ClassKey>]) -> Result<ClassTable, ListFault>
        ensures { IfOk result (λ t. FindsFirst t keys.now) }
    {
        let Ok(count) = u32::try_from(keys.len()) else {
            return Err(ListFault::NoMemory);
        };
        let mut table = ClassTable::new(alloc);
        for place in 0..count {
            table.enter_if(keys[place as usize], place)?;
        }
        Ok(table)
    }
}
