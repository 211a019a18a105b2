//! Values looked up by hash.

ghost use Rattle.std.specs.Prelude.{◌≡◌, ◌||◌, false, IfOk, OnOk, not};
ghost use Rattle.std.specs.List.{list_all};
ghost use Rattle.qvt_value.specs.declared.value.Value.{Value};
ghost use Rattle.qvt_ocl_words.specs.Lists.{same, has, lacking};

use crate::items::with_last_if;
use indexmap::IndexSet;
use qvt_base::list_fault::ListFault;
use qvt_base::seq::Seq;
use qvt_value::value::{Value, Values};
use std::alloc::Global;
use std::marker::Model;

/// Values that stand in a list, looked up by hash.
#[derive(Drop)]
pub struct Lookup<'a> {
    keys: IndexSet<&'a Value>,
}

impl<'a> Model for Lookup<'a> {
    ghost use Rattle.std.specs.Prelude.{List, map};
    ghost use Rattle.std.specs.Coded.{codes};
    ghost use Rattle.qvt_value.specs.contracts.value.Value as value;
    ghost use Rattle.qvt_value.specs.declared.value.Value.{Value as Item};

    ghost Value = { List Item };

    ghost coded = { Prim.hlevel (codes, value.the_row.coded) };

    ghost view = { λ s. map (λ value. value.now) s.keys.keys };
}

impl<'a> Lookup<'a> {
    /// No values, with room for so many.
    pub fn with_room(alloc: Global, n: usize) -> Result<Lookup<'a>, ListFault>
        ensures { IfOk result (λ none. (x : Value) → has none x ≡ false) }
    {
        match IndexSet::with_capacity(alloc, n) {
            Ok(keys) => Ok(Lookup { keys }),
            Err(_) => Err(ListFault::NoMemory),
        }
    }

    /// Puts the value among them, and tells whether no equal one was there.
    pub(crate) fn note(&mut self, value: &'a Value) -> Result<bool, ListFault>
        ensures fresh { IfOk result (λ is_new. is_new ≡ not (has self.old value.now)) }
        ensures more { OnOk result ((x : Value) → has self.new x ≡ (has self.old x || same x value.now)) }
    {
        match self.keys.insert(value) {
            Ok(is_new) => Ok(is_new),
            Err(_) => Err(ListFault::NoMemory),
        }
    }

    /// The values of the list.
    pub fn of(alloc: Global, values: &'a [Value]) -> Result<Lookup<'a>, ListFault>
        ensures { IfOk result (λ all. (x : Value) → has all x ≡ has values.now x) }
    {
        let mut all = Lookup::with_room(alloc, values.len())?;
        for value in values {
            all.note(value)?;
        }
        Ok(all)
    }

    /// Whether an equal one is among them.
    pub fn has(&self, value: &'a Value) -> bool
        ensures { result ≡ has self.now value.now }
    {
        self.keys.contains(&value)
    }
}

/// Whether all of the values stand in the list.
pub fn includes_all(alloc: Global, items: &[Value], values: &[Value]) -> Result<bool, ListFault>
    ensures { IfOk result (λ all. all ≡ list_all (has items.now) values.now) }
{
    let known = Lookup::of(alloc, items)?;
    for value in values {
        if !known.has(value) {
            return Ok(false);
        }
    }
    Ok(true)
}

/// Whether none of the values stands in the list.
pub fn excludes_all(alloc: Global, items: &[Value], values: &[Value]) -> Result<bool, ListFault>
    ensures { IfOk result (λ none. none ≡ list_all (λ value. not (has items.now value)) values.now) }
{
    let known = Lookup::of(alloc, items)?;
    for value in values {
        if known.has(value) {
            return Ok(false);
        }
    }
    Ok(true)
}

fn without<'a>(alloc: Global, known: &Lookup<'a>, items: &'a [Value]) -> Result<Values, ListFault>
    ensures { IfOk result (λ kept. kept ≡ lacking known.now items.now) }
{
    let mut kept = Seq::new(alloc);
    for item in items {
        let stays = !known.has(item);
        kept = with_last_if(alloc, kept, stays, item)?;
    }
    Ok(kept)
}

/// Copies of the items that are not among the values.
pub fn lacking(alloc: Global, values: &[Value], items: &[Value]) -> Result<Values, ListFault>
    ensures { IfOk result (λ kept. kept ≡ lacking values.now items.now) }
{
    let known = Lookup::of(alloc, values)?;
    let kept = without(alloc, &known, items)?;
    Ok(kept)
}
