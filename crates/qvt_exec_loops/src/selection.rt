//! `select` and `reject` (OCL 2.4, 11.9).

ghost use Rattle.std.specs.Prelude.{◌≡◌, List, []};
ghost use Rattle.qvt_run_data.specs.declared.late.LateWrite.{LateWrite};
ghost use Rattle.qvt_run_rules.specs.State.{Does};
ghost use Rattle.qvt_exec_loops.specs.Turns.{after_of, rest_of, Finds, Takes};
ghost use Rattle.qvt_exec_loops.specs.declared.turns.Turns.TheVariants as turn;

use crate::conditions::without_truth;
use qvt_base::copied::Copied;
use qvt_base::numbers::Place;
use qvt_base::seq::Seq;
use qvt_exec_words::made::built;
use qvt_run_data::exit::Halt;
use qvt_value::value::{Kind, Value, Values};
use std::alloc::Global;

/// The items so far for which the condition is as it is wanted, out of a collection of the kind.
#[derive(Drop)]
pub struct Kept {
    pub wanted: bool,
    pub kind: Kind,
    pub done: Values,
}

impl Kept {
    /// None so far. It takes no memory.
    pub fn new(alloc: Global, wanted: bool, kind: Kind) -> Kept
        ensures { result ≡ record { wanted = wanted; kind = kind; done = [] } }
    {
        Kept {
            wanted,
            kind,
            done: Seq::new(alloc),
        }
    }

    /// The item is kept if its condition is as it is wanted.
    #[inline(never)]
    pub fn take(
        &mut self,
        alloc: Global,
        place: Place,
        item: &Value,
        given: &Value,
    ) -> Result<Option<Value>, Halt>
        ensures { (f : Value → Does LateWrite Value) (xs : List Value) → Takes (after_of place f (turn.Kept self.old) item.now xs given.now) result (rest_of place f (turn.Kept self.new) xs) }
    {
        let Value::Bool(truth) = given else {
            return without_truth(place, given);
        };
        if *truth == self.wanted {
            self.done.push(item.copy(alloc)?)?;
        }
        Ok(None)
    }

    /// The collection of the kept items.
    pub fn finish(self, alloc: Global, place: Place) -> Result<Value, Halt>
        ensures { (f : Value → Does LateWrite Value) → Finds (rest_of place f (turn.Kept self) []) result }
    {
        let Kept { wanted, kind, done } = self;
        Ok(built(alloc, place, kind, done)?)
    }
}
