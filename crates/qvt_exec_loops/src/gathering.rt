//! `collect`, `collectNested` and `isUnique` (OCL 2.4, 7.6.2 and 11.9).

ghost use Rattle.std.specs.Prelude.{◌≡◌, List, [], IfOk};
ghost use Rattle.std.specs.List.{list_all};
ghost use Rattle.qvt_value.specs.Limits.{built};
ghost use Rattle.qvt_ocl_words.specs.Lists.{flattened};
ghost use Rattle.qvt_run_data.specs.declared.late.LateWrite.{LateWrite};
ghost use Rattle.qvt_run_rules.specs.State.{Does};
ghost use Rattle.qvt_exec_loops.specs.Turns.{after_of, rest_of, Finds, Takes};
ghost use Rattle.qvt_exec_loops.specs.Singles.{is_single_value};
ghost use Rattle.qvt_exec_loops.specs.declared.turns.Turns.TheVariants as turn;

use qvt_base::list_fault::ListFault;
use qvt_base::numbers::Place;
use qvt_base::seq::Seq;
use qvt_exec_words::iterators::all_differ;
use qvt_exec_words::made::{built, built_flat};
use qvt_exec_words::sources::collected_kind;
use qvt_run_data::exit::Halt;
use qvt_value::value::{Kind, Value, Values};
use std::alloc::Global;

/// What becomes of the values of the bodies.
#[derive(Clone, Copy, Debug, PartialEq, Eq)]
pub enum GatheringMode {
    /// A collection of them.
    Nested,
    /// The same of their innermost items.
    Flat,
    /// Whether no two of them are the same.
    Unique,
}

/// The values of the bodies so far, for items of a collection of the kind.
#[derive(Drop)]
pub struct GatheredBodies {
    pub finish: GatheringMode,
    pub kind: Kind,
    pub done: Values,
}

/// Whether it is no collection.
fn is_single_value(value: &Value) -> bool
    ensures { result ≡ is_single_value value.now }
{
    !matches!(value, Value::Coll(_, _))
}

/// Whether none of them is.
fn are_single(values: &[Value]) -> bool
    ensures { result ≡ list_all is_single_value values.now }
{
    values.iter().all(|value| is_single_value(value))
}

/// The collection of the innermost items. Values that are no collections are taken as they are.
#[tactic(auto, using(crate::proofs::Flat::flat_already))]
fn made_flat(alloc: Global, place: Place, kind: Kind, values: Values) -> Result<Value, ListFault>
    ensures { IfOk result (λ collection. collection ≡ built place kind (flattened values)) }
{
    if are_single(values.as_slice()) {
        return built(alloc, place, kind, values);
    }
    built_flat(alloc, place, kind, values.as_slice())
}

impl GatheredBodies {
    /// None so far. It takes no memory.
    pub fn new(alloc: Global, finish: GatheringMode, kind: Kind) -> GatheredBodies
        ensures { result ≡ record { finish = finish; kind = kind; done = [] } }
    {
        GatheredBodies {
            finish,
            kind,
            done: Seq::new(alloc),
        }
    }

    /// A body that is invalid ends it.
    #[inline(never)]
    pub fn take(&mut self, given: Value) -> Result<Option<Value>, Halt>
        ensures { (at : Place) (f : Value → Does LateWrite Value) (x : Value) (xs : List Value) → Takes (after_of at f (turn.Gathered self.old) x xs given) result (rest_of at f (turn.Gathered self.new) xs) }
    {
        if let Value::Invalid(reason, cause) = &given {
            return Ok(Some(Value::Invalid(*reason, *cause)));
        }
        self.done.push(given)?;
        Ok(None)
    }

    /// What becomes of them.
    pub fn finish(self, alloc: Global, place: Place) -> Result<Value, Halt>
        ensures { (f : Value → Does LateWrite Value) → Finds (rest_of place f (turn.Gathered self) []) result }
    {
        let GatheredBodies { finish, kind, done } = self;
        match finish {
            GatheringMode::Nested => Ok(built(alloc, place, collected_kind(kind), done)?),
            GatheringMode::Flat => Ok(made_flat(alloc, place, collected_kind(kind), done)?),
            GatheringMode::Unique => Ok(Value::Bool(all_differ(alloc, done.as_slice())?)),
        }
    }
}
