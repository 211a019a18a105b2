//! What the items of collection literals put into them.

ghost use Rattle.std.specs.Prelude.{[], ◌∷◌};
ghost use Rattle.qvt_run_rules.specs.Expressions.{range_of};
ghost use Rattle.qvt_run_rules.specs.State.{found, pure};
ghost use Rattle.qvt_exec_state.specs.Runs.{seen};
ghost use Rattle.qvt_exec_exprs.specs.Gathering.{Gathers};

use qvt_base::numbers::Place;
use qvt_exec_state::state::RunState;
use qvt_exec_state::steps::misfit;
use qvt_exec_words::literals::Gathered;
use qvt_run_data::exit::Halt;
use qvt_value::value::Value;
use std::alloc::Global;

/// An item alone.
#[tactic(auto, using(crate::proofs::Lists::one_gives))]
pub fn put_one(
    alloc: Global,
    gathered: &mut Gathered,
    item: Value,
    state: &RunState<'_>,
) -> Result<(), Halt>
    ensures { Gathers (pure (item ∷ []) (seen state.now)) gathered.old gathered.new result state.now }
{
    gathered.push(alloc, item)?;
    Ok(())
}

/// A range.
#[tactic(auto, using(crate::proofs::Lists::range_gives, crate::proofs::Lists::range_misfits))]
pub fn put_range(
    alloc: Global,
    gathered: &mut Gathered,
    place: Place,
    first: &Value,
    last: &Value,
    state: &RunState<'_>,
) -> Result<(), Halt>
    ensures { Gathers (found (range_of place first.now last.now) place (seen state.now)) gathered.old gathered.new result state.now }
{
    let is_put = gathered.push_range(alloc, place, first, last)?;
    if is_put { Ok(()) } else { misfit(place) }
}
