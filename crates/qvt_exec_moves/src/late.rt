//! What a run keeps of late assignments.

ghost use Rattle.qvt_exec_state.specs.Runs.{Runs, seen};
ghost use Rattle.qvt_exec_moves.specs.Moves.{enters};

use qvt_exec_state::state::RunState;
use qvt_run_data::exit::Halt;
use qvt_run_data::late::LateWrite;

/// One entry more, the latest.
pub fn enter(write: LateWrite, state: &mut RunState<'_>) -> Result<(), Halt>
    ensures { Runs (enters write (seen state.old)) result state.new }
{
    state.entries.push(write)?;
    Ok(())
}
