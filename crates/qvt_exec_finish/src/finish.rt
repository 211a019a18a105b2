//! The end of a run.

ghost use Rattle.std.specs.Prelude.{◌≡◌, All, IfOk};
ghost use Rattle.qvt_meaning.specs.Laws.{after_requests, from_requests};
ghost use Rattle.qvt_run_data.specs.declared.late.LateWrite.{LateWrite};
ghost use Rattle.qvt_run_rules.specs.State.{Done};
ghost use Rattle.qvt_live_store.specs.Held.{contents_of};
ghost use Rattle.qvt_run_laws.specs.Entries.{IsFor};
ghost use Rattle.qvt_exec_state.specs.Runs.{Runs, seen};
ghost use Rattle.qvt_exec_finish.specs.Comes.{Comes, ending};
ghost use Rattle.qvt_exec_finish.specs.Finish.{Finishes};

use crate::answers::{Ended, LateAnswers};
use crate::entries::Entry;
use crate::patches::patch_all;
use crate::stop::RunStop;
use crate::walk::walk;
use qvt_base::seq::Seq;
use qvt_exec_state::cost::Cost;
use qvt_exec_state::state::RunState;
use qvt_run_data::exit::{Exit, Halt};
use qvt_run_laws::entries::answers_fit;
use std::alloc::Global;
use std::mem;

/// A run that has ended well: the state that it left, with its late entries written into the store; the entries; and the
/// cost.
pub struct Finished<'s> {
    pub state: RunState<'s>,
    pub entries: Seq<Entry>,
    pub cost: u64,
}

impl Drop for Finished<'_> {
    fn drop(self) {
        let Finished {
            state,
            entries,
            cost,
        } = self;
    }
}

/// What comes of a run behind its last statement, by what it left: each entry is answered over the store before
/// any is written. A cost that 64 bits do not hold is told as want of memory.
fn finish<'s, A: LateAnswers>(
    alloc: Global,
    fuel: u64,
    answers: &A,
    state: RunState<'s>,
) -> Result<Finished<'s>, RunStop>
    requires ready { A.ready answers.now }
    requires entries { All (IsFor (contents_of state.store)) state.entries }
    ensures { Finishes (contents_of state.entry.store) (after_requests (A.program answers.now) fuel (seen state.entry)) result }
{
    answers_fit();
    let mut state = state;
    let writes = mem::replace(&mut state.entries, Seq::new(alloc));
    let mut cost = mem::replace(&mut state.cost, Cost::new(alloc));
    let ended = Ended {
        trace: &state.trace,
        store: state.store.as_store(),
    };
    ended.store.is_whole();
    let entries = walk(alloc, fuel, answers, &ended, writes, &mut cost)?;
    let cost = cost.told();
    if cost == u64::MAX {
        return Err(RunStop::NoMemory);
    }
    match patch_all(alloc, entries.as_slice(), &mut state.store) {
        Ok(()) => Ok(Finished {
            state,
            entries,
            cost,
        }),
        Err(stop) => Err(stop),
    }
}

/// What ends a run before its late entries are answered, if anything does: a `return` ends `main` as its last statement
/// does.
fn ending(outcome: &Result<(), Halt>) -> Result<(), RunStop>
    ensures { result ≡ ending outcome.now }
{
    match outcome {
        Ok(()) => Ok(()),
        Err(Halt::Exits(Exit::Returned(_))) => Ok(()),
        Err(Halt::Exits(Exit::Ends(end))) => Err(RunStop::Ends(*end)),
        Err(Halt::NoMemory) => Err(RunStop::NoMemory),
    }
}

/// What comes of a run behind `main`, whose late assignments fit their slots.
pub fn behind_main<'s, A: LateAnswers>(
    alloc: Global,
    fuel: u64,
    answers: &A,
    outcome: &Result<(), Halt>,
    state: RunState<'s>,
) -> Result<Finished<'s>, RunStop>
    requires ready { A.ready answers.now }
    requires entries { IfOk (ending outcome.now) (λ _. All (IsFor (contents_of state.store)) state.entries) }
    ensures { (main : Done LateWrite (Unit {0})) → Runs main outcome.now state.entry → Comes (from_requests (A.program answers.now) fuel main.0 main.1) result }
{
    match ending(outcome) {
        Ok(()) => finish(alloc, fuel, answers, state),
        Err(stop) => Err(stop),
    }
}
