//! `sortedBy` (OCL 2.4, 11.9).

ghost use Rattle.std.specs.Prelude.{◌≡◌, List, []};
ghost use Rattle.qvt_run_data.specs.declared.late.LateWrite.{LateWrite};
ghost use Rattle.qvt_run_rules.specs.State.{Does};
ghost use Rattle.qvt_exec_loops.specs.Turns.{after_of, rest_of, Finds, Takes};
ghost use Rattle.qvt_exec_loops.specs.declared.turns.Turns.TheVariants as turn;

use qvt_base::copied::Copied;
use qvt_base::numbers::Place;
use qvt_base::seq::Seq;
use qvt_exec_state::steps::misfit;
use qvt_exec_words::iterators::by_keys;
use qvt_run_data::exit::Halt;
use qvt_run_data::keyed::Keyed;
use qvt_value::value::{Kind, Reason, Value};
use std::alloc::Global;

/// The items so far with their sort keys, out of a collection of the kind.
#[derive(Drop)]
pub struct Sorted {
    pub kind: Kind,
    pub keyed: Seq<Keyed>,
}

impl Sorted {
    /// None so far. It takes no memory.
    pub fn new(alloc: Global, kind: Kind) -> Sorted
        ensures { result ≡ record { kind = kind; keyed = [] } }
    {
        Sorted {
            kind,
            keyed: Seq::new(alloc),
        }
    }

    /// A key that is null or invalid ends it.
    #[inline(never)]
    pub fn take(
        &mut self,
        alloc: Global,
        place: Place,
        item: &Value,
        given: Value,
    ) -> Result<Option<Value>, Halt>
        ensures { (f : Value → Does LateWrite Value) (xs : List Value) → Takes (after_of place f (turn.Sorted self.old) item.now xs given) result (rest_of place f (turn.Sorted self.new) xs) }
    {
        match &given {
            Value::Null => return Ok(Some(Value::Invalid(Reason::NullValue, place))),
            Value::Invalid(reason, cause) => {
                return Ok(Some(Value::Invalid(*reason, *cause)));
            }
            _ => {}
        }
        let item = item.copy(alloc)?;
        self.keyed.push(Keyed { key: given, item })?;
        Ok(None)
    }

    /// The items by their keys.
    pub fn finish(self, alloc: Global, place: Place) -> Result<Value, Halt>
        ensures { (f : Value → Does LateWrite Value) → Finds (rest_of place f (turn.Sorted self) []) result }
    {
        let Sorted { kind, keyed } = self;
        match by_keys(alloc, place, kind, keyed)? {
            Some(value) => Ok(value),
            None => misfit(place),
        }
    }
}
