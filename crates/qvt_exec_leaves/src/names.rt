//! Literals, names, and properties of values.

ghost use Rattle.qvt_value.specs.declared.value.Value.TheVariants as value;
ghost use Rattle.qvt_run_rules.specs.Cost.{spend_of};
ghost use Rattle.qvt_run_rules.specs.Expressions as rule;
ghost use Rattle.qvt_meaning.specs.Readings as by;
ghost use Rattle.qvt_exec_state.specs.Runs.{Runs, seen};
ghost use Rattle.qvt_exec_leaves.specs.Signs.{ticks_of};

use qvt_base::copied::Copied;
use qvt_base::numbers::{FeatureNo, Place};
use qvt_base::text::Text;
use qvt_exec_reads::property::property;
use qvt_exec_state::state::RunState;
use qvt_exec_state::steps::{found, misfit, read, tick};
use qvt_run_data::exit::Halt;
use qvt_types_data::note::Reading;
use qvt_types_nodes::types::TypedPathTree;
use qvt_value::value::{LiteralRef, Reason, Value};
use std::alloc::Global;

/// So many single units.
#[tactic(auto, using(crate::proofs::Signs::ticks_more, crate::proofs::Signs::ticks_over))]
pub fn ticks(limit: Option<u64>, units: usize, state: &mut RunState<'_>) -> Result<(), Halt>
    ensures { Runs (ticks_of limit units (seen state.old)) result state.new }
{
    for _ in 0..units {
        tick(limit, state)?;
    }
    Ok(())
}

/// A literal.
#[tactic(auto, unfolding(qvt_run_rules::specs::Expressions::literal))]
pub fn literal(limit: Option<u64>, value: Value, state: &mut RunState<'_>) -> Result<Value, Halt>
    ensures { Runs (rule.literal (spend_of limit) value (seen state.old)) result state.new }
{
    tick(limit, state)?;
    Ok(value)
}

/// A text.
#[tactic(auto, unfolding(qvt_run_rules::specs::Expressions::literal))]
pub fn string(
    alloc: Global,
    limit: Option<u64>,
    text: &Text,
    state: &mut RunState<'_>,
) -> Result<Value, Halt>
    ensures { Runs (rule.literal (spend_of limit) (value.Str text.now) (seen state.old)) result state.new }
{
    tick(limit, state)?;
    Ok(Value::Str(text.copy(alloc)?))
}

/// A variable.
#[tactic(auto, unfolding(qvt_run_rules::specs::Expressions::variable))]
pub fn variable(
    alloc: Global,
    limit: Option<u64>,
    name: &str,
    place: Place,
    state: &mut RunState<'_>,
) -> Result<Value, Halt>
    ensures { Runs (rule.variable (spend_of limit) name.now place (seen state.old)) result state.new }
{
    tick(limit, state)?;
    read(alloc, state, name, place)
}

/// A property of a value, at its step or name.
#[tactic(auto, unfolding(qvt_run_rules::specs::Store::read_property))]
pub fn property_of(
    alloc: Global,
    feature: FeatureNo,
    place: Place,
    value: &Value,
    state: &RunState<'_>,
) -> Result<Value, Halt>
    ensures { Runs (rule.property_of feature.0 place value.now (seen state.now)) result state.now }
{
    match value {
        Value::Invalid(reason, cause) => Ok(Value::Invalid(*reason, *cause)),
        Value::Null => Ok(Value::Invalid(Reason::NullSource, place)),
        Value::Obj(object) => {
            let value = property(alloc, place, state.store.as_store(), *object, feature)?;
            found(value, place, state)
        }
        _ => misfit(place),
    }
}

/// A property of an implicit source.
#[tactic(auto, unfolding(qvt_run_rules::specs::Expressions::implicit))]
fn implicit(
    alloc: Global,
    limit: Option<u64>,
    source: &str,
    feature: FeatureNo,
    place: Place,
    state: &mut RunState<'_>,
) -> Result<Value, Halt>
    ensures { Runs (rule.implicit (spend_of limit) source.now feature.0 place (seen state.old)) result state.new }
{
    tick(limit, state)?;
    let value = read(alloc, state, source, place)?;
    property_of(alloc, feature, place, &value, state)
}

/// A path, by what typing read it as.
pub fn named(
    alloc: Global,
    limit: Option<u64>,
    path: &TypedPathTree,
    state: &mut RunState<'_>,
) -> Result<Value, Halt>
    ensures { Runs (by.name_of (spend_of limit) path.now.note.reading path.now.note.source path.now.place (seen state.old)) result state.new }
{
    match &path.note.reading {
        Reading::Variable(name) => variable(alloc, limit, name.as_str(), path.place, state),
        Reading::Feature(feature) => match &path.note.source {
            Some(source) => implicit(alloc, limit, source.as_str(), *feature, path.place, state),
            None => misfit(path.place),
        },
        Reading::Literal(metamodel, enumeration, literal) => enumerated(
            limit,
            LiteralRef {
                metamodel: *metamodel,
                enumeration: *enumeration,
                literal: *literal,
            },
            state,
        ),
        _ => misfit(path.place),
    }
}

/// A literal of an enumeration.
fn enumerated(limit: Option<u64>, of: LiteralRef, state: &mut RunState<'_>) -> Result<Value, Halt>
    ensures { Runs (rule.literal (spend_of limit) (value.Enum of) (seen state.old)) result state.new }
{
    literal(limit, Value::Enum(of), state)
}
