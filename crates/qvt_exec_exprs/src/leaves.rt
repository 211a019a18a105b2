//! Expressions with no other inside them, each with its values on a stack of its own.

ghost use Rattle.qvt_value.specs.declared.value.Value.TheVariants as value;
ghost use Rattle.qvt_run_rules.specs.Cost.{spend_of};
ghost use Rattle.qvt_run_rules.specs.Expressions as rule;
ghost use Rattle.qvt_meaning.specs.Readings as by;
ghost use Rattle.qvt_exec_state.specs.Runs.{Runs, seen};

use qvt_base::numbers::Place;
use qvt_base::text::Text;
use qvt_exec_leaves::names;
use qvt_exec_state::state::RunState;
use qvt_exec_steps::engine::Engine;
use qvt_run_data::exit::Halt;
use qvt_types_nodes::types::TypedPathTree;
use qvt_value::value::Value;

/// An Integer.
#[inline(never)]
pub fn integer(x: &Engine<'_>, number: i64, state: &mut RunState<'_>) -> Result<Value, Halt>
    ensures { Runs (rule.literal (spend_of x.now.limit) (value.Int number) (seen state.old)) result state.new }
{
    names::literal(x.limit, Value::Int(number), state)
}

/// A Boolean.
#[inline(never)]
pub fn boolean(x: &Engine<'_>, truth: bool, state: &mut RunState<'_>) -> Result<Value, Halt>
    ensures { Runs (rule.literal (spend_of x.now.limit) (value.Bool truth) (seen state.old)) result state.new }
{
    names::literal(x.limit, Value::Bool(truth), state)
}

/// `null`.
#[inline(never)]
pub fn null(x: &Engine<'_>, state: &mut RunState<'_>) -> Result<Value, Halt>
    ensures { Runs (rule.literal (spend_of x.now.limit) value.Null (seen state.old)) result state.new }
{
    names::literal(x.limit, Value::Null, state)
}

/// A text.
#[inline(never)]
pub fn text(x: &Engine<'_>, text: &Text, state: &mut RunState<'_>) -> Result<Value, Halt>
    ensures { Runs (rule.literal (spend_of x.now.limit) (value.Str text.now) (seen state.old)) result state.new }
{
    names::string(x.alloc, x.limit, text, state)
}

/// `self` or `result`.
#[inline(never)]
pub fn variable(
    x: &Engine<'_>,
    name: &str,
    place: &Place,
    state: &mut RunState<'_>,
) -> Result<Value, Halt>
    ensures { Runs (rule.variable (spend_of x.now.limit) name.now place.now (seen state.old)) result state.new }
{
    names::variable(x.alloc, x.limit, name, *place, state)
}

/// A path, by what typing read it as.
#[inline(never)]
pub fn name(x: &Engine<'_>, path: &TypedPathTree, state: &mut RunState<'_>) -> Result<Value, Halt>
    ensures { Runs (by.name_of (spend_of x.now.limit) path.now.note.reading path.now.note.source path.now.place (seen state.old)) result state.new }
{
    names::named(x.alloc, x.limit, path, state)
}
