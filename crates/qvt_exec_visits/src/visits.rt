//! The closure (OCL 2.4, 11.9.2): its body is evaluated for the items of the source, for what that gives,
//! for what this gives, and so on, but for no item twice.

ghost use Rattle.std.specs.Prelude.{◌≡◌, [], IfOk};
ghost use Rattle.qvt_value.specs.Limits.{built};
ghost use Rattle.qvt_run_rules.specs.Sources.{reached_kind};
ghost use Rattle.qvt_exec_visits.specs.Visited.{begun, GivesVisited, IsNextItem, TakesBodyValue};

use crate::reached::Reached;
use crate::waiting::Waiting;
use qvt_base::list_fault::ListFault;
use qvt_base::numbers::Place;
use qvt_exec_words::made::built;
use qvt_exec_words::sources::reached_kind;
use qvt_ocl::operands::is_invalid;
use qvt_run_data::exit::Halt;
use qvt_value::value::{Kind, Value};
use std::alloc::Global;
use std::marker::Model;

/// How far a closure has come. An item is looked up once where it comes to be visited, and each object
/// of a body is put down once.
pub struct Visits {
    kind: Kind,
    reached: Reached,
    waiting: Waiting,
}

impl Drop for Visits {
    fn drop(self) {
        let Visits {
            kind,
            reached,
            waiting,
        } = self;
    }
}

impl Model for Visits {
    ghost use Rattle.std.specs.Coded.{codes};
    ghost use Rattle.qvt_value.specs.contracts.value.Value as value;
    ghost use Rattle.qvt_exec_visits.specs.Visited.{Visited};

    ghost Value = { Visited };

    ghost coded = { Prim.hlevel (codes, value.the_row.coded) };

    ghost view = { λ v. record { kind = v.kind; done = v.reached; left = v.waiting } };
}

impl Visits {
    /// Before the first item of a collection of the kind.
    pub fn start(alloc: Global, kind: Kind, items: &[Value]) -> Result<Visits, ListFault>
        ensures { IfOk result (λ visits. visits ≡ begun kind items.now) }
    {
        let waiting = Waiting::of(alloc, items)?;
        let reached = Reached::new(alloc);
        Ok(Visits {
            kind,
            reached,
            waiting,
        })
    }

    /// Takes off the next item that was not visited. None where no such item is left. It takes no memory.
    pub fn next(&mut self) -> Option<Value>
        ensures { IsNextItem self.old result self.new }
    {
        next_of(&self.reached, &mut self.waiting)
    }

    /// Visits an item, with the value of the body for it: the objects of that come before the items that
    /// were waiting. None where the closure goes on. A body that is invalid ends it, and is given back.
    /// After a refusal the visits are to be given up.
    pub fn take(&mut self, item: Value, given: Value) -> Result<Option<Value>, ListFault>
        ensures { IfOk result (λ ended. TakesBodyValue self.old item given ended self.new) }
    {
        if is_invalid(&given) {
            return Ok(Some(given));
        }
        self.reached.add(item)?;
        self.waiting.push_items(given)?;
        Ok(None)
    }

    /// The collection of the items that were visited.
    pub fn finish(self, alloc: Global, place: Place) -> Result<Value, Halt>
        ensures { GivesVisited (built place (reached_kind self.kind) self.done) result }
    {
        let Visits {
            kind,
            reached,
            waiting,
        } = self;
        let items = reached.into_items(alloc)?;
        Ok(built(alloc, place, reached_kind(kind), items)?)
    }
}

ghost use Rattle.std.specs.Prelude.{MatchOption, ◌∷◌};
ghost use Rattle.qvt_run_rules.specs.Iterators.{unvisited};

/// Takes off the first of the items that was not visited, and those before it.
fn next_of(reached: &Reached, waiting: &mut Waiting) -> Option<Value>
    ensures { MatchOption result (unvisited reached.now waiting.old ≡ []) (λ item. unvisited reached.now waiting.old ≡ item ∷ waiting.new) }
{
    while let Some(item) = waiting.pop() {
        if !reached.has(&item) {
            return Some(item);
        }
    }
    None
}
