//! The helpers, queries and constructors of a program by their numbers.

ghost use Rattle.std.specs.Prelude.{◌≡◌, option_map};
ghost use Rattle.std.specs.Option.{option_copied};
ghost use Rattle.qvt_types_nodes.specs.Module.{typed_unit_view};
ghost use Rattle.qvt_types_units.specs.Numbers.{no_unit};
ghost use Rattle.qvt_run_data.specs.declared.late.LateWrite.{LateWrite};
ghost use Rattle.qvt_run_rules.specs.Calls.{CallRule};
ghost use Rattle.qvt_meaning.specs.Readings.{Setting};
ghost use Rattle.qvt_meaning.specs.Units as of_units;
ghost use Rattle.qvt_exec_candidates.specs.Stage.{setting_in};
ghost use Rattle.qvt_exec_candidates.specs.declared.run.Run.{Run};
ghost use Rattle.qvt_exec_called.specs.Routines.{routine_in, routine_of};

use qvt_exec_phrases::nested::{Nested, program};
use qvt_exec_phrases::numbers::{signature_of, unit_of};
use qvt_exec_phrases::units::ReadyUnits;
use qvt_types_nodes::module::{TypedHelper, TypedUnit};
use qvt_types_units::signature::Signature;

/// A helper, a query or a constructor: what its head says, and its text.
#[derive(Clone, Copy)]
pub struct RoutineUnit<'a> {
    pub head: &'a Signature,
    pub node: &'a TypedHelper,
}

/// What is called that a unit is.
#[tactic(auto, unfolding(crate::specs::Routines::routine_in))]
fn routine_in<'a>(head: &'a Signature, unit: Option<&'a TypedUnit>) -> Option<RoutineUnit<'a>>
    ensures { (x : Setting LateWrite) (calls : CallRule LateWrite) → option_map (routine_in x calls) result ≡ of_units.routine_in x calls head.now (option_map typed_unit_view (option_copied unit.entry)) }
{
    match unit {
        Some(TypedUnit::Helper(node)) => Some(RoutineUnit { head, node }),
        Some(TypedUnit::Constructor(node)) => Some(RoutineUnit { head, node }),
        _ => None,
    }
}

/// The helper, query or constructor that the unit of this number is.
#[tactic(auto, unfolding(qvt_meaning::specs::Units::routine_at))]
pub fn routine_at<'a, C: Nested>(
    units: &'a ReadyUnits<C>,
    none: &'a Signature,
    number: u32,
) -> Option<RoutineUnit<'a>>
    requires { none.now ≡ no_unit }
    ensures { (run : Run) → option_map (routine_of (run, C.means units.now)) result ≡ of_units.routine_at (setting_in (run, C.means units.now)) (C.means units.now).calls number }
{
    let program = program(units);
    routine_in(
        signature_of(program, number, none),
        unit_of(program, number),
    )
}
