//! What resolves answer (QVT 1.3, 8.1.10 and 8.2.1.22).

ghost use Rattle.std.specs.Prelude.{IfOk};
ghost use Rattle.qvt_exec_plain.specs.Table.{IsTable};
ghost use Rattle.qvt_exec_resolves.specs.Verdicts.{found_view};
ghost use Rattle.qvt_exec_answers.specs.Answering.{answer_in, answer_of, resolves_of};
ghost use Rattle.qvt_exec_answers.specs.Room.{IsAnswer, charged_of};
ghost use Rattle.qvt_exec_state.specs.Runs.{Runs, seen};

use crate::answering::Answering;
use crate::questions::Question;
use crate::room::Room;
use crate::sifting::{Sum, sift};
use qvt_base::list_fault::ListFault;
use qvt_base::numbers::Place;
use qvt_exec_resolves::candidates::candidates;
use qvt_exec_resolves::trace::Trace;
use qvt_exec_resolves::verdicts::answer_value;
use qvt_exec_state::state::RunState;
use qvt_exec_state::steps::spend;
use qvt_run_data::exit::{End, Exit, Halt};
use qvt_run_data::request::Query;
use qvt_store::store::Store;
use qvt_value::value::Value;

/// The answer of a question over a trace and a store, None where its cost is above the fuel.
#[tactic(auto, unfolding(qvt_meaning::specs::Plain::answer))]
pub fn answer(
    a: &Answering<'_, '_>,
    question: &Question<'_>,
    trace: &Trace,
    store: &Store,
    room: &Room<'_>,
) -> Result<Option<Sum>, ListFault>
    requires { IsTable a.now.expressions.now }
    ensures { IfOk result (IsAnswer room.now.fuel room.now.spent.now (answer_of a.now trace.now store.now question.now)) }
{
    let objects = candidates(a.alloc, trace, store, question.request)?;
    sift(a, question, objects.as_slice(), store, room)
}

/// The cost, and then the value.
fn charged(
    a: &Answering<'_, '_>,
    one: bool,
    sum: &Sum,
    state: &mut RunState<'_>,
) -> Result<Value, Halt>
    ensures { Runs (charged_of a.now.fuel one sum.now.cost (found_view sum.now.found) (seen state.old)) result state.new }
{
    spend(Some(a.fuel), sum.cost, state)?;
    answer_value(a.alloc, one, &sum.found, state)
}

/// The answer over what the state has.
fn answered_in(
    a: &Answering<'_, '_>,
    query: &Query,
    place: Place,
    state: &RunState<'_>,
) -> Result<Option<Sum>, ListFault>
    requires { IsTable a.now.expressions.now }
    ensures { IfOk result (IsAnswer a.now.fuel state.now.cost (answer_in a.now place query.now (seen state.now))) }
{
    let question = Question {
        request: &query.request,
        one: query.one,
        condition: query.condition,
        locals: &state.locals,
        place,
    };
    let room = Room {
        spent: &state.cost,
        fuel: a.fuel,
    };
    answer(a, &question, &state.trace, state.store.as_store(), &room)
}

/// The answer of a resolve that is not late, over the state's own trace and store, with the cost of the
/// conditions.
#[tactic(auto, using(crate::proofs::Charged::charged_is, crate::proofs::Charged::not_charged))]
pub fn answered(
    a: &Answering<'_, '_>,
    query: Query,
    place: Place,
    state: &mut RunState<'_>,
) -> Result<Value, Halt>
    requires { IsTable a.now.expressions.now }
    ensures { Runs (resolves_of a.now place query (seen state.old)) result state.new }
{
    let sum = answered_in(a, &query, place, state)?;
    match sum {
        Some(sum) => charged(a, query.one, &sum, state),
        None => Err(Halt::Exits(Exit::Ends(End::OutOfFuel))),
    }
}
