//! The mappings of a program by their numbers.

ghost use Rattle.std.specs.Prelude.{◌≡◌, option_map};
ghost use Rattle.std.specs.Option.{option_copied};
ghost use Rattle.qvt_types_nodes.specs.Module.{typed_unit_view};
ghost use Rattle.qvt_types_units.specs.Numbers.{no_unit};
ghost use Rattle.qvt_run_data.specs.declared.late.LateWrite.{LateWrite};
ghost use Rattle.qvt_run_rules.specs.Calls.{CallRule};
ghost use Rattle.qvt_meaning.specs.Readings.{Setting};
ghost use Rattle.qvt_meaning.specs.Units as of_units;
ghost use Rattle.qvt_exec_candidates.specs.Stage.{mappings_of, rule_in, rule_of};
ghost use Rattle.qvt_exec_candidates.specs.declared.run.Run.{Run};

use qvt_exec_phrases::nested::{Nested, program};
use qvt_exec_phrases::numbers::{mapping_unit, signature_of, unit_of};
use qvt_exec_phrases::units::ReadyUnits;
use qvt_types_nodes::module::{TypedMapping, TypedUnit};
use qvt_types_units::signature::Signature;

/// A mapping: its number among mappings, what its head says, and its text.
#[derive(Clone, Copy)]
pub struct MappingUnit<'a> {
    pub number: u32,
    pub head: &'a Signature,
    pub node: &'a TypedMapping,
}

/// The mapping that a unit is.
#[tactic(auto, unfolding(crate::specs::Stage::rule_in))]
fn mapping_in<'a>(
    number: u32,
    head: &'a Signature,
    unit: Option<&'a TypedUnit>,
) -> Option<MappingUnit<'a>>
    ensures { (x : Setting LateWrite) (calls : CallRule LateWrite) → option_map (rule_in x calls) result ≡ of_units.mapping_in x calls number head.now (option_map typed_unit_view (option_copied unit.entry)) }
{
    match unit {
        Some(TypedUnit::Mapping(node)) => Some(MappingUnit { number, head, node }),
        _ => None,
    }
}

/// The mapping of this number.
#[tactic(auto, unfolding(qvt_meaning::specs::Units::mapping_at))]
pub fn mapping_at<'a, C: Nested>(
    units: &'a ReadyUnits<C>,
    none: &'a Signature,
    number: u32,
) -> Option<MappingUnit<'a>>
    requires { none.now ≡ no_unit }
    ensures { (run : Run) → option_map (rule_of (run, C.means units.now)) result ≡ mappings_of (run, C.means units.now) number }
{
    let program = program(units);
    match mapping_unit(program, number) {
        None => None,
        Some(unit) => mapping_in(
            number,
            signature_of(program, unit, none),
            unit_of(program, unit),
        ),
    }
}
