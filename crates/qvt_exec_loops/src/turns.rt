//! Iterators that are fed one item at a time, with the value of the body for it (OCL 2.4, 7.6 and 11.9).

ghost use Rattle.std.specs.Prelude.{◌≡◌, List, []};
ghost use Rattle.qvt_run_data.specs.declared.late.LateWrite.{LateWrite};
ghost use Rattle.qvt_run_rules.specs.State.{Does};
ghost use Rattle.qvt_exec_loops.specs.Turns.{after_of, rest_of, turns_of, Finds, Takes};

use crate::conditions::{take_any, take_exists, take_for_all, take_one};
use crate::gathering::{GatheredBodies, GatheringMode};
use crate::selection::Kept;
use crate::sorting::Sorted;
use qvt_base::numbers::Place;
use qvt_run_data::exit::Halt;
use qvt_types_steps::iterators::IteratorKind;
use qvt_value::value::{Kind, Value};
use std::alloc::Global;

/// What an iterator keeps between its turns.
pub enum Turns {
    /// `select` and `reject`.
    Kept(Kept),
    /// `collect`, `collectNested` and `isUnique`.
    Gathered(GatheredBodies),
    /// `any`.
    Any,
    /// `one`: for how many items the condition was true.
    One(usize),
    /// `exists`: the bodies joined by `or`.
    Exists(Value),
    /// `forAll`: the bodies joined by `and`.
    ForAll(Value),
    /// `sortedBy`.
    Sorted(Sorted),
}

impl Drop for Turns {
    fn drop(self) {
        match self {
            Turns::Kept(kept) => {}
            Turns::Gathered(gathered) => {}
            Turns::Any => {}
            Turns::One(count) => {}
            Turns::Exists(so_far) => {}
            Turns::ForAll(so_far) => {}
            Turns::Sorted(sorted) => {}
        }
    }
}

impl Turns {
    /// What an iterator begins with over a collection of the kind; None for `iterate` and `closure`. It
    /// takes no memory.
    pub fn start(alloc: Global, which: IteratorKind, kind: Kind) -> Option<Turns>
        ensures { result ≡ turns_of which kind }
    {
        let turns = match which {
            IteratorKind::Select => Turns::Kept(Kept::new(alloc, true, kind)),
            IteratorKind::Reject => Turns::Kept(Kept::new(alloc, false, kind)),
            IteratorKind::Collect => Turns::Gathered(GatheredBodies::new(
                alloc,
                GatheringMode::Flat,
                kind,
            )),
            IteratorKind::CollectNested => Turns::Gathered(GatheredBodies::new(
                alloc,
                GatheringMode::Nested,
                kind,
            )),
            IteratorKind::Exists => Turns::Exists(Value::Bool(false)),
            IteratorKind::ForAll => Turns::ForAll(Value::Bool(true)),
            IteratorKind::Any => Turns::Any,
            IteratorKind::One => Turns::One(0),
            IteratorKind::IsUnique => Turns::Gathered(GatheredBodies::new(
                alloc,
                GatheringMode::Unique,
                kind,
            )),
            IteratorKind::SortedBy => Turns::Sorted(Sorted::new(alloc, kind)),
            IteratorKind::Iterate | IteratorKind::Closure => return None,
        };
        Some(turns)
    }

    /// Takes an item with the value of the body for it. None where the iterator goes on; else the value
    /// that it gives, whatever items are left.
    pub fn take(
        &mut self,
        alloc: Global,
        place: Place,
        item: &Value,
        given: Value,
    ) -> Result<Option<Value>, Halt>
        ensures { (f : Value → Does LateWrite Value) (xs : List Value) → Takes (after_of place f self.old item.now xs given) result (rest_of place f self.new xs) }
    {
        match self {
            Turns::Kept(kept) => kept.take(alloc, place, item, &given),
            Turns::Gathered(gathered) => gathered.take(given),
            Turns::Any => take_any(alloc, place, item, &given),
            Turns::One(count) => take_one(count, place, &given),
            Turns::Exists(so_far) => take_exists(so_far, place, given),
            Turns::ForAll(so_far) => take_for_all(so_far, place, given),
            Turns::Sorted(sorted) => sorted.take(alloc, place, item, given),
        }
    }

    /// What the iterator gives where no item is left.
    pub fn finish(self, alloc: Global, place: Place) -> Result<Value, Halt>
        ensures { (f : Value → Does LateWrite Value) → Finds (rest_of place f self []) result }
    {
        match self {
            Turns::Kept(kept) => kept.finish(alloc, place),
            Turns::Gathered(gathered) => gathered.finish(alloc, place),
            Turns::Any => Ok(Value::Null),
            Turns::One(count) => Ok(Value::Bool(count == 1)),
            Turns::Exists(so_far) => Ok(so_far),
            Turns::ForAll(so_far) => Ok(so_far),
            Turns::Sorted(sorted) => sorted.finish(alloc, place),
        }
    }
}
