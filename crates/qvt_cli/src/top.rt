ghost use Rattle.std.specs.Prelude.{◌≡◌, ◌≢◌, ◌⊎◌, IsOk, Some, None};
ghost use Rattle.qvt_base.specs.Outside.{Held};
ghost use Rattle.qvt_outcome.specs.Outcome.{status_of, usage_line};
ghost use Rattle.qvt_outcome.specs.Reported.{Answers, Fails, NoneRose, IsWhole, outside};
ghost use Rattle.qvt_cli.specs.Commands.{command_view};
ghost use Rattle.qvt_cli.specs.Written.{HasWritten};
ghost use Rattle.qvt_work.specs.Conforming.{CommandConforms, ModelsConform};
ghost use Rattle.qvt_work.specs.Fuel.{HasExactCost};
ghost use Rattle.qvt_work.specs.Recorded.{HasOneRecordEach};
ghost use Rattle.qvt_work.specs.Runs.{IsOfRun};
ghost use Rattle.qvt_work.specs.Work.{work_of, job, turns};
ghost use Rattle.qvt_outcome.specs.Steps.{settled};
ghost use Rattle.qvt_work.specs.Words.{command_of};

use crate::words::{Command, command_of};
use crate::work::perform;
use qvt_base::lists::WordList;
use qvt_base::outside::{Files, Sink};
use qvt_outcome::plan::carry_out;
use qvt_outcome::report::{finish, report};
use qvt_outcome::status::Status;
use std::alloc::Global;

/// Does the work of a command, and reports.
fn work_and_report<F: Files, S: Sink>(
    alloc: Global,
    command: Command<'_>,
    files: &mut F,
    out: &mut S,
) -> Status
    ensures answer { (held : Held) → (F.seen files.old).held ≡ Some held → Answers (settled (work_of (command_view command.entry) held).answer) (work_of (command_view command.entry) held).names held
        (outside (F.seen files.old) (S.seen out.old)) (outside (F.seen files.new) (S.seen out.new)) result }
    ensures complete { (held : Held) → (F.seen files.old).held ≡ Some held
        → NoneRose (outside (F.seen files.old) (S.seen out.old)) (outside (F.seen files.new) (S.seen out.new))
        → (result ≡ status_of (settled (work_of (command_view command.entry) held).answer)) ⊎ (result ≡ Status.NoMemory) }
    ensures given { (held : Held) → (F.seen files.old).held ≡ Some held → HasWritten result held (F.seen files.new) → IsOk (work_of (command_view command.entry) held).answer }
    ensures conform { (held : Held) → (F.seen files.old).held ≡ Some held → HasWritten result held (F.seen files.new) → CommandConforms (command_view command.entry) held }
    ensures no_usage { result ≢ Status.Usage }
    ensures fails { Fails (outside (F.seen files.old) (S.seen out.old)) (outside (F.seen files.new) (S.seen out.new)) result }
{
    match perform(alloc, files, command) {
        Ok(plan) => carry_out(files, out, &plan),
        Err(stop) => finish(alloc, out, &stop),
    }
}

/// Does what the words of a command line ask for, over these files and this sink, and answers how it
/// ended. The words are those after the program's name.
#[tactic(auto, unfolding(qvt_work::specs::Work::work))]
pub fn qvto<F: Files, S: Sink>(
    alloc: Global,
    words: &WordList,
    files: &mut F,
    out: &mut S,
) -> Status
    // Where the files tell what they hold: the answer is the outcome's, and files and sink are as it
    // says; or a read, a write or the sink failed, or memory was wanting, with what that leaves.
    ensures answer { (held : Held) → (F.seen files.old).held ≡ Some held → Answers (job words.now held) (turns words.now held) held
        (outside (F.seen files.old) (S.seen out.old)) (outside (F.seen files.new) (S.seen out.new)) result }

    // Where nothing failed, the answer is the outcome's or want of memory.
    ensures complete { (held : Held) → (F.seen files.old).held ≡ Some held
        → NoneRose (outside (F.seen files.old) (S.seen out.old)) (outside (F.seen files.new) (S.seen out.new))
        → (result ≡ status_of (job words.now held)) ⊎ (result ≡ Status.NoMemory) }

    // Where it is done, or a file is not as before, and the words ask for a run, there is a run behind
    // what is written. Each model of it conforms to its metamodel.
    ensures conform { (held : Held) → (F.seen files.old).held ≡ Some held → HasWritten result held (F.seen files.new) → IsOfRun words.now held ModelsConform }
    // Its trace has at most one record for each mapping, context and argument list, and exactly one for
    // each whose call came to the step that writes its record, or whose init returned with a result.
    ensures records { (held : Held) → (F.seen files.old).held ≡ Some held → HasWritten result held (F.seen files.new) → IsOfRun words.now held HasOneRecordEach }
    // Its cost is exact: with n in place of the job's fuel the files and the line are the same, or it is
    // out of fuel where n is less than the cost.
    ensures cost { (held : Held) → (F.seen files.old).held ≡ Some held → HasWritten result held (F.seen files.new) → IsOfRun words.now held (HasExactCost held) }

    // By the words and the counts alone, whether the files tell what they hold or not.
    ensures usage { result ≡ Status.Usage → (command_of words.now ≡ None) × IsWhole usage_line (S.seen out.old) (S.seen out.new) }
    ensures no_usage { command_of words.now ≡ None → (result ≡ Status.Usage) ⊎ (result ≡ Status.WriteFault) }

    // What failed is told, and by no other answer: the line of a failed read names the file whose read
    // failed in this call.
    ensures fails { Fails (outside (F.seen files.old) (S.seen out.old)) (outside (F.seen files.new) (S.seen out.new)) result }
{
    match command_of(words.as_slice()) {
        None => report(
            out,
            b"usage: qvto run JOB or check METAMODEL MODEL or print FILE or demo N\n",
            Status::Usage,
        ),
        Some(command) => work_and_report(alloc, command, files, out),
    }
}
