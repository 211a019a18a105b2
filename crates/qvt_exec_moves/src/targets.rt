//! The objects whose properties assignments change. An object is told at the sign of the assignment.

ghost use Rattle.qvt_run_rules.specs.Statements.{inner_target, source_target, with_slot};
ghost use Rattle.qvt_exec_state.specs.Runs.{Runs, seen};
ghost use Rattle.qvt_exec_moves.specs.Moves.{member_of};

use crate::values::object_of;
use qvt_base::numbers::{FeatureNo, Oid, Place};
use qvt_exec_reads::conditions::is_slot;
use qvt_exec_state::locals::local_named;
use qvt_exec_state::state::RunState;
use qvt_exec_state::steps::misfit;
use qvt_run_data::exit::Halt;
use qvt_value::value::Value;

/// The object, which has the property.
pub fn with_slot(
    feature: FeatureNo,
    place: Place,
    object: Oid,
    state: &RunState<'_>,
) -> Result<Oid, Halt>
    ensures { Runs (with_slot feature.0 place object (seen state.now)) result state.now }
{
    if is_slot(state.store.as_store(), object, feature) {
        Ok(object)
    } else {
        misfit(place)
    }
}

/// The object of the innermost object expression.
#[tactic(auto, unfolding(qvt_run_rules::specs::Statements::inner_target))]
pub fn inner_target(feature: FeatureNo, place: Place, state: &RunState<'_>) -> Result<Oid, Halt>
    ensures { Runs (inner_target feature.0 place (seen state.now)) result state.now }
{
    match state.inner {
        Some(object) => with_slot(feature, place, object, state),
        None => misfit(place),
    }
}

/// The object that a value is, which has the property.
pub fn member_target(
    feature: FeatureNo,
    place: Place,
    value: &Value,
    state: &RunState<'_>,
) -> Result<Oid, Halt>
    ensures { Runs (member_of feature.0 place value.now (seen state.now)) result state.now }
{
    let object = object_of(place, value, state)?;
    with_slot(feature, place, object, state)
}

/// The object of a variable.
#[tactic(auto, unfolding(qvt_run_rules::specs::Statements::source_target, qvt_run_rules::specs::Locals::read))]
pub fn source_target(
    name: &str,
    feature: FeatureNo,
    place: Place,
    state: &RunState<'_>,
) -> Result<Oid, Halt>
    ensures { Runs (source_target name.now feature.0 place (seen state.now)) result state.now }
{
    match local_named(state.locals.as_slice(), name) {
        Some(local) => member_target(feature, place, &local.value, state),
        None => misfit(place),
    }
}
