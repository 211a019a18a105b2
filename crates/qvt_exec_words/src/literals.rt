//! Collection literals (OCL 2.4, 7.5.11), with ranges of any length.

ghost use Rattle.std.specs.Prelude.{◌≡◌, ◌∷◌, ◌++◌, [], List, IfOk, OnOk, MatchOption, true, false};
ghost use Rattle.std.specs.List.{find};
ghost use Rattle.std.specs.Option.{option_map};
ghost use Rattle.qvt_exec_words.specs.Gathered.{items_between, AreGathered, AreAllHeld, HasMore};
ghost use Rattle.qvt_value.specs.declared.value.Value.{Null, Int};
ghost use Rattle.qvt_run_rules.specs.Expressions.{integers_to, range_of, collection};
ghost use Rattle.qvt_value.specs.Kept.{firsts};
ghost use Rattle.qvt_value.specs.Make.{is_invalid};
ghost use Rattle.qvt_value.specs.Order.{order_of};

use crate::made::built;
use crate::sources::items_of;
use qvt_base::copied::Copied;
use qvt_base::list_fault::ListFault;
use qvt_base::numbers::Place;
use qvt_base::seq::Seq;
use qvt_ocl::kinds::is_once;
use qvt_ocl::operands::{invalid_in, is_invalid};
use qvt_value::limits::MOST;
use qvt_value::make::make;
use qvt_value::value::{Kind, Reason, Value, Values};
use std::alloc::Global;
use std::mem;

/// The ends of a range: two Integers, or the one item that stands in their place.
#[derive(Clone, Copy, Debug)]
enum Ends {
    Item(Reason, Place),
    Integers(i64, i64),
}

/// What a range from null on is: the last end where that is invalid, else NullSource.
fn null_ends(place: Place, last: &Value) -> Ends
    ensures { Some (items_between result) ≡ range_of place Null last.now }
{
    match last {
        Value::Invalid(reason, at) => Ends::Item(*reason, *at),
        _ => Ends::Item(Reason::NullSource, place),
    }
}

/// The ends of a range from this Integer on.
fn ends_from(place: Place, first: i64, last: &Value) -> Option<Ends>
    ensures { option_map items_between result ≡ range_of place (Int first) last.now }
{
    match last {
        Value::Invalid(reason, at) => Some(Ends::Item(*reason, *at)),
        Value::Null => Some(Ends::Item(Reason::NullSource, place)),
        Value::Int(last) => Some(Ends::Integers(first, *last)),
        _ => None,
    }
}

/// The ends of a range: an invalid one comes first, then null. None where they are no such ends.
fn ends_of(place: Place, first: &Value, last: &Value) -> Option<Ends>
    ensures { option_map items_between result ≡ range_of place first.now last.now }
{
    match first {
        Value::Invalid(reason, at) => Some(Ends::Item(*reason, *at)),
        Value::Null => Some(null_ends(place, last)),
        Value::Int(first) => ends_from(place, *first, last),
        _ => match last {
            Value::Invalid(reason, at) => Some(Ends::Item(*reason, *at)),
            Value::Null => Some(Ends::Item(Reason::NullSource, place)),
            _ => None,
        },
    }
}

/// A copy of the first invalid item.
fn invalid_of(alloc: Global, items: &[Value]) -> Result<Option<Value>, ListFault>
    ensures { IfOk result (λ invalid. invalid ≡ find is_invalid items.now) }
{
    match invalid_in(items) {
        Some(invalid) => Ok(Some(invalid.copy(alloc)?)),
        None => Ok(None),
    }
}

/// The collection of these items, or the first that is invalid.
#[tactic(auto, unfolding(qvt_run_rules::specs::Expressions::collection))]
pub fn collection(
    alloc: Global,
    place: Place,
    kind: Kind,
    items: Values,
) -> Result<Value, ListFault>
    ensures { IfOk result (λ value. value ≡ collection place kind items) }
{
    match invalid_of(alloc, items.as_slice())? {
        Some(invalid) => Ok(invalid),
        None => built(alloc, place, kind, items),
    }
}

/// Each item where it first stands.
fn firsts(alloc: Global, items: Values) -> Result<Values, ListFault>
    ensures { IfOk result (λ kept. kept ≡ firsts order_of items) }
{
    match make(alloc, Kind::OrderedSet, items) {
        Ok(set) => items_of(alloc, set),
        Err(_) => Err(ListFault::NoMemory),
    }
}

/// The items of a collection literal that were met so far. Of very many no more are held than tell
/// what collection they make, so that a long range does not take the machine's memory.
pub struct Gathered {
    kind: Kind,
    items: Values,
    /// More were met than a collection may hold.
    is_full: bool,
}

impl Drop for Gathered {
    fn drop(self) {
        let Gathered {
            kind,
            items,
            is_full,
        } = self;
    }
}

impl Gathered {
    /// None so far, for a collection of this kind.
    pub fn new(alloc: Global, kind: Kind) -> Gathered
        ensures { AreGathered kind [] result }
    {
        Gathered {
            kind,
            items: Seq::new(alloc),
            is_full: false,
        }
    }

    /// Leaves each item where it first stands.
    fn keep_firsts(&mut self, alloc: Global) -> Result<(), ListFault>
        ensures { OnOk result (self.new ≡ record self.old { items = firsts order_of self.old.items }) }
    {
        let items = mem::replace(&mut self.items, Seq::new(alloc));
        self.items = firsts(alloc, items)?;
        Ok(())
    }

    /// Puts the item last, however many there are.
    fn put(&mut self, item: Value) -> Result<(), ListFault>
        ensures { OnOk result (self.new ≡ record self.old { items = self.old.items ++ item ∷ [] }) }
    {
        self.items.push(item)
    }

    /// Sees to it that few are held.
    fn settle(&mut self, alloc: Global) -> Result<(), ListFault>
        ensures { OnOk result ((kind : Kind) (all : List Value) → AreAllHeld kind all self.old → AreGathered kind all self.new) }
    {
        if !is_once(self.kind) {
            self.is_full = self.items.len() > MOST;
            return Ok(());
        }
        if self.items.len() <= 2 * MOST {
            return Ok(());
        }
        self.keep_firsts(alloc)?;
        self.is_full = self.items.len() > MOST;
        Ok(())
    }

    /// Puts the item last. After a refusal what was gathered is to be given up.
    pub fn push(&mut self, alloc: Global, item: Value) -> Result<(), ListFault>
        ensures { OnOk result (HasMore (item ∷ []) self.old self.new) }
    {
        if !self.is_full {
            self.put(item)?;
            return self.settle(alloc);
        }
        if is_invalid(&item) {
            return self.put(item);
        }
        Ok(())
    }

    /// Puts the Integers from the first to the last.
    fn push_integers(&mut self, alloc: Global, first: i64, last: i64) -> Result<(), ListFault>
        ensures { OnOk result (HasMore (integers_to first last) self.old self.new) }
    {
        for number in first..=last {
            if self.is_full {
                return Ok(());
            }
            self.push(alloc, Value::Int(number))?;
        }
        Ok(())
    }

    fn push_ends(&mut self, alloc: Global, ends: Ends) -> Result<(), ListFault>
        ensures { OnOk result (HasMore (items_between ends) self.old self.new) }
    {
        match ends {
            Ends::Item(reason, at) => self.push(alloc, Value::Invalid(reason, at)),
            Ends::Integers(first, last) => self.push_integers(alloc, first, last),
        }
    }

    /// Puts the items of the range with these ends. Where they are no ends of a range nothing is put,
    /// and it answers so. After a refusal what was gathered is to be given up.
    #[tactic(auto, using(crate::proofs::Gathering::ranged, crate::proofs::Gathering::not_ranged))]
    pub fn push_range(
        &mut self,
        alloc: Global,
        place: Place,
        first: &Value,
        last: &Value,
    ) -> Result<bool, ListFault>
        ensures { IfOk result (λ put. MatchOption (range_of place first.now last.now) (put ≡ false) (λ items. (put ≡ true) × HasMore items self.old self.new)) }
    {
        match ends_of(place, first, last) {
            Some(ends) => {
                self.push_ends(alloc, ends)?;
                Ok(true)
            }
            None => Ok(false),
        }
    }

    /// The collection of all items that were put, or the first that is invalid.
    pub fn into_value(self, alloc: Global, place: Place) -> Result<Value, ListFault>
        ensures { (kind : Kind) (all : List Value) → AreGathered kind all self → IfOk result (λ value. value ≡ collection place kind all) }
    {
        let Gathered {
            kind,
            items,
            is_full,
        } = self;
        if !is_full {
            return collection(alloc, place, kind, items);
        }
        match invalid_of(alloc, items.as_slice())? {
            Some(invalid) => Ok(invalid),
            None => Ok(Value::Invalid(Reason::TooLarge, place)),
        }
    }
}
