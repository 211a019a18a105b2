//! The answers of late entries in order.

ghost use Rattle.qvt_exec_finish.specs.Entries.{Walks, entries_over};

use crate::answers::{Ended, LateAnswers};
use crate::entries::{Entry, step};
use crate::stop::RunStop;
use qvt_base::seq::Seq;
use qvt_exec_state::cost::Cost;
use qvt_run_data::late::LateWrite;
use std::alloc::Global;

/// The entries in the order of their entry, all answered over the same trace and store. The first whose cost
/// passes the fuel, that has an invalid condition or meets a fault of types ends the run.
pub fn walk<A: LateAnswers>(
    alloc: Global,
    fuel: u64,
    answers: &A,
    ended: &Ended<'_>,
    writes: Seq<LateWrite>,
    cost: &mut Cost,
) -> Result<Seq<Entry>, RunStop>
    requires { A.ready answers.now }
    ensures { Walks fuel cost.old (entries_over (A.program answers.now) ended.now writes) result cost.new }
{
    let mut entries = Seq::new(alloc);
    for write in writes.into_vec() {
        let entry = step(alloc, fuel, answers, ended, write, cost)?;
        entries.push(entry)?;
    }
    Ok(entries)
}
