//! What answers the late entries of a run.

ghost use Rattle.std.specs.Prelude.{◌≡◌, IfOk};
ghost use Rattle.qvt_exec_answers.specs.Answering.{program_of};
ghost use Rattle.qvt_exec_answers.specs.Room.{IsAnswer};
ghost use Rattle.qvt_exec_answers.specs.Table.{IsTable};
ghost use Rattle.qvt_exec_finish.specs.Entries.{answer_over};

use qvt_base::list_fault::ListFault;
use qvt_exec_answers::answering::Answering;
use qvt_exec_answers::answers::answer;
use qvt_exec_answers::questions::Question;
use qvt_exec_answers::room::Room;
use qvt_exec_answers::sifting::Sum;
use qvt_exec_answers::vars::locals_of;
use qvt_exec_finish::answers::{Ended, LateAnswer, LateAnswers};
use qvt_exec_resolves::verdicts::Found;
use qvt_exec_state::cost::Cost;
use qvt_run_data::exit::End;
use qvt_run_data::late::LateWrite;
use std::mem;

/// The answers of late entries by their conditions.
#[derive(Clone, Copy)]
pub struct ByConditions<'b, 'e, 'a> {
    pub answering: &'b Answering<'e, 'a>,
}

/// The answer of an entry, with the variables that it kept.
fn answer_over(
    a: &Answering<'_, '_>,
    ended: &Ended<'_>,
    write: &LateWrite,
    room: &Room<'_>,
) -> Result<Option<Sum>, ListFault>
    requires { IsTable a.now.expressions.now }
    ensures { IfOk result (IsAnswer room.now.fuel room.now.spent.now (answer_over (program_of a.now) ended.now write.now)) }
{
    let locals = locals_of(a.alloc, write.vars.as_slice())?;
    let question = Question {
        request: &write.request,
        one: write.one,
        condition: write.condition,
        locals: &locals,
        place: write.place,
    };
    answer(a, &question, ended.trace, ended.store, room)
}

/// The same answer.
fn late_answer(sum: Sum) -> LateAnswer
    ensures { result ≡ record { found = sum.found; cost = sum.cost } }
{
    let mut sum = sum;
    let found = mem::replace(&mut sum.found, Found::Stopped(End::OutOfFuel));
    LateAnswer {
        found,
        cost: sum.cost,
    }
}

impl LateAnswers for ByConditions<'_, '_, '_> {
    ghost ready = { λ c. IsTable c.answering.now.expressions.now };

    ghost program = { λ c. program_of c.answering.now };

    fn answer(
        &self,
        ended: &Ended<'_>,
        write: &LateWrite,
        spent: &Cost,
        fuel: u64,
    ) -> Result<Option<LateAnswer>, ListFault> {
        let room = Room { spent, fuel };
        match answer_over(self.answering, ended, write, &room)? {
            None => Ok(None),
            Some(sum) => Ok(Some(late_answer(sum))),
        }
    }
}
