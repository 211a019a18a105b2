//! Late entries with their answers.

ghost use Rattle.std.specs.Prelude.{◌≡◌};
ghost use Rattle.qvt_exec_resolves.specs.Verdicts.{found_view};
ghost use Rattle.qvt_exec_finish.specs.Entries.{IsFound, Steps, entry_over};

use crate::answers::{Ended, LateAnswers};
use crate::stop::RunStop;
use qvt_base::lists::OidList;
use qvt_base::seq::Seq;
use qvt_exec_resolves::verdicts::Found;
use qvt_exec_state::cost::Cost;
use qvt_run_data::exit::End;
use qvt_run_data::fault::RunFault;
use qvt_run_data::late::LateWrite;
use std::alloc::Global;
use std::mem;

/// What a late assignment kept, the objects that it writes, and the cost of the conditions that were evaluated to
/// find them.
pub struct Entry {
    pub write: LateWrite,
    pub objects: OidList,
    pub cost: u64,
}

impl Drop for Entry {
    fn drop(self) {
        let Entry {
            write,
            objects,
            cost,
        } = self;
    }
}

impl Entry {
    /// What was kept, and the objects that were written.
    pub fn into_parts(self) -> (LateWrite, OidList)
        ensures { result ≡ (self.write, self.objects) }
    {
        let Entry {
            write,
            objects,
            cost,
        } = self;
        (write, objects)
    }
}

/// The objects that were found. An invalid condition of a late entry is a fault.
fn found_objects(alloc: Global, found: Found) -> Result<OidList, RunStop>
    ensures { IsFound (found_view found) result }
{
    let mut found = found;
    match &mut found {
        Found::Objects(objects) => Ok(mem::replace(objects, Seq::new(alloc))),
        Found::Undefined(reason, place) => Err(RunStop::Ends(End::Fault(
            RunFault::InvalidValue(*reason),
            *place,
        ))),
        Found::Stopped(end) => Err(RunStop::Ends(*end)),
    }
}

/// One entry with its answer. It costs one unit and its conditions.
pub fn step<A: LateAnswers>(
    alloc: Global,
    fuel: u64,
    answers: &A,
    ended: &Ended<'_>,
    write: LateWrite,
    cost: &mut Cost,
) -> Result<Entry, RunStop>
    requires { A.ready answers.now }
    ensures { Steps fuel cost.old (entry_over (A.program answers.now) ended.now write) result cost.new }
{
    cost.add(1)?;
    let Some(answer) = answers.answer(ended, &write, cost, fuel)? else {
        return Err(RunStop::Ends(End::OutOfFuel));
    };
    let mut answer = answer;
    if cost.passes(answer.cost, fuel) {
        return Err(RunStop::Ends(End::OutOfFuel));
    }
    cost.add(answer.cost)?;
    let found = mem::replace(&mut answer.found, Found::Stopped(End::OutOfFuel));
    let objects = found_objects(alloc, found)?;
    Ok(Entry {
        write,
        objects,
        cost: answer.cost,
    })
}
