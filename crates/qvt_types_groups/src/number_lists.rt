//! Lists of numbers by name, looked up by hash.

ghost use Rattle.std.specs.Prelude.{◌≡◌, ◌++◌, ◌∷◌, [], ◌<◌, ℕ, List, length, position, if◌then◌else◌, slice_index_or, slice_set, IfOk, OnOk};
ghost use Rattle.std.specs.Str.{bytes_eq};
ghost use Rattle.qvt_types_groups.specs.Lists.{NamedLists, numbers_under};

use qvt_base::list_fault::ListFault;
use qvt_base::seq::Seq;
use qvt_types_paths::name_index::NameIndex;
use std::alloc::Global;
use std::marker::Model;

/// Lists of numbers by name, each in the order in which the numbers were put there.
pub struct NumberLists {
    names: NameIndex,
    lists: Vec<Seq<u32>>,
}

impl Drop for NumberLists {
    fn drop(self) {
        let NumberLists { names, lists } = self;
    }
}

impl Model for NumberLists {
    ghost use Rattle.std.specs.Prelude.{◌≡◌, length};
    ghost use Rattle.qvt_types_groups.specs.Lists.{NamedLists};

    ghost Value = { NamedLists };

    ghost view = { λ t. record { names = t.names; lists = t.lists.items } };

    ghost invariant = { λ t. length t.lists.items ≡ length t.names };
}

/// Puts the number last in the list at a place.
fn push_at(lists: &mut Vec<Seq<u32>>, at: usize, number: u32) -> Result<(), ListFault>
    requires { at < length lists.old.items }
    ensures { OnOk result (lists.new.items ≡ slice_set lists.old.items at (slice_index_or lists.old.items at [] ++ number ∷ [])) }
{
    lists[at].push(number)
}

impl NumberLists {
    /// No names. It takes no memory.
    pub fn new(alloc: Global) -> NumberLists
        ensures { (name : List ℕ) → numbers_under result name ≡ [] }
    {
        NumberLists {
            names: NameIndex::new(alloc),
            lists: Vec::new(alloc),
        }
    }

    /// The lists, in the order of the names.
    pub fn lists(&self) -> &[Seq<u32>]
        ensures { result.now ≡ self.now.lists }
    {
        self.lists.as_slice()
    }

    /// The place of a name.
    pub fn place(&self, name: &str) -> Option<u32>
        ensures { result ≡ position (bytes_eq name.now) self.now.names }
    {
        self.names.place(name)
    }

    /// The numbers under the name, in order.
    pub fn find(&self, name: &str) -> &[u32]
        ensures { result.now ≡ numbers_under self.now name.now }
    {
        let Some(place) = self.names.place(name) else {
            return &[];
        };
        let at = place as usize;
        if at < self.lists.len() {
            self.lists[at].as_slice()
        } else {
            &[]
        }
    }

    /// The same with the number last in the list at this place.
    fn with_more(self, place: u32, number: u32) -> Result<NumberLists, ListFault>
        requires { place < length self.names }
        ensures { IfOk result (λ all. all ≡ record { names = self.names; lists = slice_set self.lists place (slice_index_or self.lists place [] ++ number ∷ []) }) }
    {
        let NumberLists { names, mut lists } = self;
        push_at(&mut lists, place as usize, number)?;
        Ok(NumberLists { names, lists })
    }

    /// The same with a name last, and this number under it.
    fn with_name(self, alloc: Global, name: &str, number: u32) -> Result<NumberLists, ListFault>
        ensures { IfOk result (λ all. all ≡ record { names = self.names ++ name.now ∷ []; lists = self.lists ++ (number ∷ []) ∷ [] }) }
    {
        let mut list = Seq::new(alloc);
        list.push(number)?;
        let NumberLists { names, lists } = self;
        let mut lists = Seq::from_vec(lists);
        lists.push(list)?;
        let names = names.with(alloc, name)?;
        Ok(NumberLists {
            names,
            lists: lists.into_vec(),
        })
    }

    /// The same with the number last under the name.
    pub fn with(self, alloc: Global, name: &str, number: u32) -> Result<NumberLists, ListFault>
        ensures { IfOk result (λ all. (other : List ℕ) → numbers_under all other ≡ numbers_under self other ++ (if bytes_eq other name.now then number ∷ [] else [])) }
    {
        match self.names.place(name) {
            Some(place) => {
                let more = self.with_more(place, number)?;
                Ok(more)
            }
            None => {
                let named = self.with_name(alloc, name, number)?;
                Ok(named)
            }
        }
    }
}
