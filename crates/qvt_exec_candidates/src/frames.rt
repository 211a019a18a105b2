//! The variables with which mappings begin.

ghost use Rattle.std.specs.Prelude.{◌≡◌};
ghost use Rattle.qvt_meaning.specs.Program.{known_class};
ghost use Rattle.qvt_run_rules.specs.Mappings as rule;
ghost use Rattle.qvt_exec_state.specs.Runs.{Runs, seen};
ghost use Rattle.qvt_exec_candidates.specs.Stage.{mappings_of, rule_of};

use crate::mapping::MappingUnit;
use crate::run::Run;
use qvt_base::copied::Copied;
use qvt_base::numbers::{Oid, Place};
use qvt_base::seq::Seq;
use qvt_exec_phrases::frames::frame;
use qvt_exec_phrases::units::{ReadyUnits, UnitCalls};
use qvt_exec_state::state::RunState;
use qvt_run_data::exit::Halt;
use qvt_run_data::local::Local;
use qvt_types_units::signature::HeadClass;
use qvt_value::value::Values;

/// Whether the class of a context is known.
fn is_known(context: HeadClass) -> bool
    ensures { result ≡ rule.is_there (known_class context) }
{
    match context {
        HeadClass::Known(_) => true,
        _ => false,
    }
}

/// `self`, if the mapping has a context, and the parameters with copies of these values.
#[tactic(auto, unfolding(crate::specs::Stage::rule_in))]
pub fn frame_of<C: UnitCalls>(
    run: &Run,
    units: &ReadyUnits<C>,
    mapping: &MappingUnit<'_>,
    context: Option<Oid>,
    args: &Values,
    place: Place,
    state: &RunState<'_>,
) -> Result<Seq<Local>, Halt>
    ensures { Runs (rule.frame_of (mappings_of (run.now, C.means units.now)) (C.means units.now).calls (rule_of (run.now, C.means units.now) mapping.now) context args.now place (seen state.now)) result state.now }
{
    let values = args.copy(run.alloc)?;
    frame(
        run.alloc,
        is_known(mapping.head.context),
        mapping.node.params.as_slice(),
        mapping.head.params.as_slice(),
        context,
        values,
        place,
        state,
    )
}
