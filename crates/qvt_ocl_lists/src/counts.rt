//! How often values stand in a list.

ghost use Rattle.std.specs.Prelude.{◌≡◌, ◌-◌, IfOk, OnOk, if◌then◌else◌, nat_lt};
ghost use Rattle.qvt_value.specs.declared.value.Value.{Value};
ghost use Rattle.qvt_ocl_words.specs.Lists.{same, count, common};
ghost use Rattle.qvt_ocl_lists.specs.Counts.{left};

use crate::items::with_last_if;
use indexmap::IndexMap;
use qvt_base::list_fault::ListFault;
use qvt_base::seq::Seq;
use qvt_value::value::{Value, Values};
use std::alloc::Global;
use std::marker::Model;

/// How often each value is left, looked up by hash.
#[derive(Drop)]
pub struct Counts<'a> {
    counts: IndexMap<&'a Value, usize>,
}

impl<'a> Model for Counts<'a> {
    ghost use Rattle.std.specs.Prelude.{List, ℕ};
    ghost use Rattle.std.specs.Coded.{codes};
    ghost use Rattle.qvt_value.specs.contracts.value.Value as value;
    ghost use Rattle.qvt_value.specs.declared.value.Value.{Value as Item};
    ghost use Rattle.qvt_ocl_lists.specs.Counts.{shown};

    ghost Value = { List (Item × ℕ) };

    ghost coded = { Prim.hlevel (codes, value.the_row.coded) };

    ghost view = { λ c. shown c.counts.entries };
}

impl<'a> Counts<'a> {
    /// None of any value, with room for so many values.
    fn with_room(alloc: Global, n: usize) -> Result<Counts<'a>, ListFault>
        ensures { IfOk result (λ none. (x : Value) → left none x ≡ 0) }
    {
        match IndexMap::with_capacity(alloc, n) {
            Ok(counts) => Ok(Counts { counts }),
            Err(_) => Err(ListFault::NoMemory),
        }
    }

    /// How often the value is left.
    pub fn of(&self, value: &'a Value) -> usize
        ensures { result ≡ left self.now value.now }
    {
        self.counts.get(&value).copied().unwrap_or(0)
    }

    fn set(&mut self, value: &'a Value, n: usize) -> Result<(), ListFault>
        ensures { OnOk result ((x : Value) → left self.new x ≡ (if same x value.now then n else left self.old x)) }
    {
        match self.counts.insert(value, n) {
            Ok(_) => Ok(()),
            Err(_) => Err(ListFault::NoMemory),
        }
    }

    /// How often each value stands in the list.
    pub fn in_list(alloc: Global, values: &'a [Value]) -> Result<Counts<'a>, ListFault>
        ensures { IfOk result (λ all. (x : Value) → left all x ≡ count x values.now) }
    {
        let mut all = Counts::with_room(alloc, values.len())?;
        for value in values {
            // No list is so long that this is not told.
            let Some(more) = all.of(value).checked_add(1) else {
                return Err(ListFault::NoMemory);
            };
            all.set(value, more)?;
        }
        Ok(all)
    }

    /// Takes the value once, if it is left.
    pub(crate) fn take(&mut self, value: &'a Value) -> Result<bool, ListFault>
        ensures was { IfOk result (λ was. was ≡ nat_lt 0 (left self.old value.now)) }
        ensures less { OnOk result ((x : Value) → left self.new x ≡ (if same x value.now then left self.old x - 1 else left self.old x)) }
    {
        let n = self.of(value);
        if n == 0 {
            return Ok(false);
        }
        self.set(value, n - 1)?;
        Ok(true)
    }
}

/// Each item as often as it stands in both lists.
pub fn common(alloc: Global, items: &[Value], others: &[Value]) -> Result<Values, ListFault>
    ensures { IfOk result (λ kept. kept ≡ common items.now others.now) }
{
    let mut counts = Counts::in_list(alloc, others)?;
    let mut kept = Seq::new(alloc);
    for item in items {
        let stays = counts.take(item)?;
        kept = with_last_if(alloc, kept, stays, item)?;
    }
    Ok(kept)
}
