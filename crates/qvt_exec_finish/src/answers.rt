//! What answers late entries.

ghost use Rattle.std.specs.Prelude.{IfOk};
ghost use Rattle.qvt_typing.specs.Accepts.{ProgramTerm};
ghost use Rattle.qvt_exec_finish.specs.Answers.{IsLateAnswer};
ghost use Rattle.qvt_exec_finish.specs.Entries.{answer_over};

use qvt_base::list_fault::ListFault;
use qvt_exec_resolves::trace::Trace;
use qvt_exec_resolves::verdicts::Found;
use qvt_exec_state::cost::Cost;
use qvt_run_data::late::LateWrite;
use qvt_store::store::Store;

/// The trace and the store that `main` left, over which late entries are answered.
#[derive(Clone, Copy)]
pub struct Ended<'f> {
    pub trace: &'f Trace,
    pub store: &'f Store,
}

/// The objects that a late entry has, or what ended its answer, with the cost of the conditions that were evaluated.
pub struct LateAnswer {
    pub found: Found,
    pub cost: u64,
}

impl Drop for LateAnswer {
    fn drop(self) {
        let LateAnswer { found, cost } = self;
    }
}

/// The answers of late entries of a program, of values that are `ready` for them.
pub trait LateAnswers {
    ghost ready: { Self → Type 0 };

    ghost program: { Self → ProgramTerm };

    /// The answer of an entry, with the variables that it kept. None where its cost is above the fuel, over what was
    /// spent before.
    fn answer(
        &self,
        ended: &Ended<'_>,
        write: &LateWrite,
        spent: &Cost,
        fuel: u64,
    ) -> Result<Option<LateAnswer>, ListFault>
        requires { ready self.now }
        ensures { IfOk result (IsLateAnswer fuel spent.now (answer_over (program self.now) ended.now write.now)) };
}
