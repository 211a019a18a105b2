//! A run of a program (QVT 1.3, 8.2.1.3 for `main`, 8.1.10 for what is late): `main`, outside all objects; then the
//! answers of the late entries, then their changes.

ghost use Rattle.std.specs.Prelude.{IfOk, IsTrue, None};
ghost use Rattle.qvt_types_nodes.specs.View.{typed_block_view};
ghost use Rattle.qvt_meaning.specs.Laws.{keys_differ};
ghost use Rattle.qvt_meaning.specs.Run.{finished};
ghost use Rattle.qvt_meaning.specs.Units as of_units;
ghost use Rattle.qvt_run_laws.specs.Records.{HasOneForEach};
ghost use Rattle.qvt_exec_state.specs.Runs.{Runs, seen};
ghost use Rattle.qvt_exec_answers.specs.Table.{IsTable};
ghost use Rattle.qvt_exec_answers.specs.Answering.{program_of};
ghost use Rattle.qvt_exec_finish.specs.Comes.{Comes};
ghost use Rattle.qvt_exec.specs.Calls.{calls_of, setting_of};
ghost use Rattle.qvt_exec.specs.Mains.{main_of};

use crate::knot::run_block;
use crate::late::ByConditions;
use qvt_base::seq::Seq;
use qvt_exec_answers::answering::Answering;
use qvt_exec_called::main_body::main_body;
use qvt_exec_finish::finish::{Finished, behind_main};
use qvt_exec_finish::stop::RunStop;
use qvt_exec_phrases::engine::Engine;
use qvt_exec_state::state::RunState;
use qvt_live_store::live::LiveStore;
use qvt_meaning_laws::laws::one_pass;
use qvt_run_data::exit::Halt;
use qvt_run_laws::entries::requests_fit;
use qvt_run_laws::records::{one_is_left, one_record};
use qvt_types_nodes::tree::TypedStmts;

/// A block whose `return` gives any value, outside all calls.
#[tactic(auto, unfolding(qvt_exec_phrases::specs::Means::stmts_of))]
fn free_block(
    a: &Answering<'_, '_>,
    nodes: &TypedStmts,
    state: &mut RunState<'_>,
) -> Result<(), Halt>
    requires { IsTable a.now.expressions.now }
    ensures { Runs (of_units.body_of (setting_of a.now) (calls_of a.now 100) None (typed_block_view nodes.now) (seen state.old)) result state.new }
{
    let none = None;
    let x = Engine {
        alloc: a.alloc,
        limit: Some(a.fuel),
        is_plain: false,
        answer: &none,
    };
    run_block(a, &x, nodes, state)
}

/// `main`: a `return` ends it.
#[tactic(auto, using(crate::proofs::Mains::main_is))]
fn run_main(a: &Answering<'_, '_>, state: &mut RunState<'_>) -> Result<(), Halt>
    requires { IsTable a.now.expressions.now }
    ensures { Runs (main_of a.now (seen state.old)) result state.new }
{
    let none = Seq::new(a.alloc);
    free_block(a, main_body(a.expressions.program(), &none), state)
}

/// The run of a program over a loaded store: what it leaves, or what ends it. Its trace has at most one record for each
/// mapping, context and argument list, and exactly one where a call has come to the step that writes the record, or its
/// init section returned with a result. A cost that 64 bits do not hold is told as want of memory.
pub fn run<'s>(a: &Answering<'_, '_>, store: LiveStore) -> Result<Finished<'s>, RunStop>
    requires { IsTable a.now.expressions.now }
    ensures comes { Comes (finished (program_of a.now) store a.now.fuel) result }
    ensures keys { IfOk result (λ f. IsTrue (keys_differ f.state.trace)) }
    ensures records { IfOk result (λ f. HasOneForEach (program_of a.now) a.now.fuel f.state.trace) }
{
    one_pass();
    one_record();
    one_is_left();
    requests_fit();
    let mut state = RunState::of_run(a.alloc, store);
    let outcome = run_main(a, &mut state);
    let late = ByConditions { answering: a };
    behind_main(a.alloc, a.fuel, &late, &outcome, state)
}
