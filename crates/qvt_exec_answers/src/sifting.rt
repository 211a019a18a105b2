//! The candidates that pass.

ghost use Rattle.std.specs.Prelude.{[], IfOk};
ghost use Rattle.qvt_run_rules.specs.Resolve.{sifted};
ghost use Rattle.qvt_exec_plain.specs.Table.{IsTable};
ghost use Rattle.qvt_exec_answers.specs.Room.{IsAnswer};
ghost use Rattle.qvt_exec_answers.specs.Weights.{test_of};

use crate::answering::Answering;
use crate::questions::Question;
use crate::room::Room;
use crate::weights::weigh;
use qvt_base::list_fault::ListFault;
use qvt_base::numbers::Oid;
use qvt_base::seq::Seq;
use qvt_exec_resolves::verdicts::{Found, Sifted, sifted_by};
use qvt_run_data::exit::End;
use qvt_store::store::Store;
use std::mem;

/// The objects that a request has, or what ended its answer, with the cost of the conditions that were
/// evaluated.
pub struct Sum {
    pub found: Found,
    pub cost: u64,
}

impl Drop for Sum {
    fn drop(self) {
        let Sum { found, cost } = self;
    }
}

/// The candidates that pass, in order. Where one is wanted the first ends it; so does a condition that is
/// neither true nor false. None where the cost is above the fuel, which may be seen before the last candidate.
pub fn sift(
    a: &Answering<'_, '_>,
    question: &Question<'_>,
    objects: &[Oid],
    store: &Store,
    room: &Room<'_>,
) -> Result<Option<Sum>, ListFault>
    requires { IsTable a.now.expressions.now }
    ensures { IfOk result (IsAnswer room.now.fuel room.now.spent.now (sifted (test_of a.now store.now question.now) question.now.one [] 0 objects.now)) }
{
    let alloc = a.alloc;
    let mut done = Seq::new(alloc);
    let mut cost: u64 = 0;
    for object in objects {
        let weight = weigh(a, question, *object, store)?;
        let Some(sum) = room.sum(cost, weight.cost)? else {
            return Ok(None);
        };
        cost = sum;
        let mut sifted = sifted_by(weight.verdict, question.one, done, *object)?;
        match &mut sifted {
            Sifted::GoesOn(more) => done = mem::replace(more, Seq::new(alloc)),
            Sifted::Ends(found) => {
                let found = mem::replace(found, Found::Stopped(End::OutOfFuel));
                return Ok(Some(Sum { found, cost }));
            }
        }
    }
    Ok(Some(Sum {
        found: Found::Objects(done),
        cost,
    }))
}
