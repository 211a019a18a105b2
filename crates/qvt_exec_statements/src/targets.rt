//! The objects that assignments change (QVT 1.3, 8.2.2.11 AssignExp).

ghost use Rattle.qvt_run_rules.specs.Statements as statement;
ghost use Rattle.qvt_exec_resolves.specs.Readings as by;
ghost use Rattle.qvt_exec_state.specs.Runs.{Runs, seen};
ghost use Rattle.qvt_exec_phrases.specs.Means.{expr_of};

use qvt_base::numbers::{FeatureNo, Oid, Place};
use qvt_base::text::Text;
use qvt_exec_moves::targets::{inner_target, member_target, source_target};
use qvt_exec_phrases::engine::Engine;
use qvt_exec_phrases::nested::{Nested, expr};
use qvt_exec_phrases::units::ReadyUnits;
use qvt_exec_state::state::RunState;
use qvt_run_data::exit::Halt;
use qvt_types_nodes::tree::TypedExpr;

/// The object whose property a bare name means: that of the innermost object expression, or that of its
/// implicit source.
pub fn bare_target(
    source: &Option<Text>,
    feature: FeatureNo,
    place: Place,
    state: &RunState<'_>,
) -> Result<Oid, Halt>
    ensures { Runs (by.bare_target source.now feature.0 place (seen state.now)) result state.now }
{
    match source {
        None => inner_target(feature, place, state),
        Some(source) => source_target(source.as_str(), feature, place, state),
    }
}

/// The object of a property that is written behind a dot.
#[inline(never)]
#[tactic(auto, unfolding(qvt_run_rules::specs::Statements::member_target))]
pub fn owner<C: Nested>(
    x: &Engine<'_>,
    units: &ReadyUnits<C>,
    object: &TypedExpr,
    feature: FeatureNo,
    place: Place,
    state: &mut RunState<'_>,
) -> Result<Oid, Halt>
    ensures { Runs (statement.member_target (expr_of (x.now, C.means units.now) object.now) feature.0 place (seen state.old)) result state.new }
{
    let value = expr(x, units, object, state)?;
    member_target(feature, place, &value, state)
}
