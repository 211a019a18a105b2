ghost use Rattle.std.specs.Prelude.{◌≡◌, IfOk, Some};
ghost use Rattle.qvt_base.specs.Outside.{Held};
ghost use Rattle.qvt_cli.specs.Commands.{command_view};
ghost use Rattle.qvt_outcome.specs.Plans.{outcome_of, HaveFaultLines};
ghost use Rattle.qvt_outcome.specs.Follows.{Follows};
ghost use Rattle.qvt_work.specs.Conforming.{CommandConforms};
ghost use Rattle.qvt_work.specs.Work.{work_of};

use crate::run::perform_run;
use crate::words::Command;
use qvt_base::outside::Files;
use qvt_cli_reading::check::perform_check;
use qvt_cli_reading::print::perform_print;
use qvt_outcome::plan::Plan;
use qvt_outcome::stop::Stop;
use std::alloc::Global;

/// Does the work of a command up to its first write, and plans what is to be written. Every model among that conforms to its
/// metamodel.
pub fn perform<F: Files>(alloc: Global, files: &mut F, command: Command<'_>) -> Result<Plan, Stop>
    ensures follows { Follows outcome_of (work_of (command_view command.entry)) (F.seen files.old) result (F.seen files.new) }
    ensures ready { IfOk result (λ p. HaveFaultLines p.outputs) }
    ensures conform { (held : Held) → (F.seen files.old).held ≡ Some held → IfOk result (λ plan. CommandConforms (command_view command.entry) held) }
{
    match command {
        Command::Run(job) => perform_run(alloc, files, job),
        Command::Check(metamodel, model) => perform_check(alloc, files, metamodel, model),
        Command::Print(file) => perform_print(alloc, files, file),
    }
}
