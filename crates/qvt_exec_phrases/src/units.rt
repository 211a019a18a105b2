//! What stands behind a call or a resolve.

ghost use Rattle.qvt_exec_state.specs.Runs.{Runs, seen};
ghost use Rattle.qvt_exec_phrases.specs.Units.{UnitMeanings};

use qvt_base::numbers::Place;
use qvt_exec_state::state::RunState;
use qvt_run_data::callee::Callee;
use qvt_run_data::exit::Halt;
use qvt_run_data::request::Query;
use qvt_value::value::{Value, Values};
use std::marker::Model;

/// The calls of units, and resolves, of values that are `ready` for them.
pub trait UnitCalls {
    ghost ready: { Self → Type 0 };

    ghost means: { Self → UnitMeanings };

    /// The call of a unit with these arguments, at its place.
    fn call(
        &self,
        callee: Callee,
        args: Values,
        place: Place,
        state: &mut RunState<'_>,
    ) -> Result<Value, Halt>
        requires { ready self.now }
        ensures { Runs ((means self.now).calls callee args place (seen state.old)) result state.new };

    /// The answer of a resolve that is not late, at its place.
    fn resolve(&self, query: Query, place: Place, state: &mut RunState<'_>) -> Result<Value, Halt>
        requires { ready self.now }
        ensures { Runs ((means self.now).resolves place query (seen state.old)) result state.new };
}

/// Units that are ready.
#[derive(Drop)]
pub struct ReadyUnits<C: UnitCalls> {
    pub units: C,
}

impl<C: UnitCalls> Model for ReadyUnits<C> {
    ghost Value = { C };

    ghost view = { λ u. u.units };

    ghost invariant = { λ u. C.ready u.units };
}

impl<C: UnitCalls> ReadyUnits<C> {
    /// The call of a unit with these arguments, at its place.
    pub fn call(
        &self,
        callee: Callee,
        args: Values,
        place: Place,
        state: &mut RunState<'_>,
    ) -> Result<Value, Halt>
        ensures { Runs ((C.means self.now).calls callee args place (seen state.old)) result state.new }
    {
        self.units.call(callee, args, place, state)
    }

    /// The answer of a resolve that is not late, at its place.
    pub fn resolve(
        &self,
        query: Query,
        place: Place,
        state: &mut RunState<'_>,
    ) -> Result<Value, Halt>
        ensures { Runs ((C.means self.now).resolves place query (seen state.old)) result state.new }
    {
        self.units.resolve(query, place, state)
    }
}
