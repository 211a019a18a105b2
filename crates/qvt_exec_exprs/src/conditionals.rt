//! Conditionals (OCL 2.4, 7.5.1).

ghost use Rattle.qvt_types_nodes.specs.View.{typed_expr_view};
ghost use Rattle.qvt_meaning.specs.Nodes as nodes;
ghost use Rattle.qvt_run_rules.specs.Cost.{spend_of};
ghost use Rattle.qvt_run_rules.specs.Expressions as rule;
ghost use Rattle.qvt_exec_state.specs.Runs.{Runs, seen};
ghost use Rattle.qvt_exec_steps.specs.Means.{expr_of};

use qvt_base::numbers::Place;
use qvt_exec_leaves::nodes::place_of;
use qvt_exec_state::state::RunState;
use qvt_exec_state::steps::{misfit, tick};
use qvt_exec_steps::engine::Engine;
use qvt_exec_steps::nested::{Nested, expr};
use qvt_exec_steps::units::ReadyUnits;
use qvt_run_data::exit::Halt;
use qvt_types_nodes::tree::TypedExpr;
use qvt_value::value::{Reason, Value};

/// What one of two expressions gives, by the value of a condition at this place.
fn chosen<C: Nested>(
    x: &Engine<'_>,
    units: &ReadyUnits<C>,
    test: &Value,
    place: Place,
    one: &TypedExpr,
    other: &TypedExpr,
    state: &mut RunState<'_>,
) -> Result<Value, Halt>
    ensures { Runs (rule.chosen place (expr_of (x.now, C.means units.now) one.now) (expr_of (x.now, C.means units.now) other.now) test.now (seen state.old)) result state.new }
{
    match test {
        Value::Bool(truth) => {
            if *truth {
                expr(x, units, one, state)
            } else {
                expr(x, units, other, state)
            }
        }
        Value::Null => Ok(Value::Invalid(Reason::NullValue, place)),
        Value::Invalid(reason, cause) => Ok(Value::Invalid(*reason, *cause)),
        _ => misfit(place),
    }
}

/// A conditional, of which one side alone is evaluated.
#[inline(never)]
#[tactic(auto, unfolding(qvt_run_rules::specs::Expressions::conditional))]
pub fn conditional<C: Nested>(
    x: &Engine<'_>,
    units: &ReadyUnits<C>,
    condition: &TypedExpr,
    one: &TypedExpr,
    other: &TypedExpr,
    state: &mut RunState<'_>,
) -> Result<Value, Halt>
    ensures { Runs (rule.conditional (spend_of x.now.limit) (expr_of (x.now, C.means units.now) condition.now) (nodes.place_of (typed_expr_view condition.now)) (expr_of (x.now, C.means units.now) one.now) (expr_of (x.now, C.means units.now) other.now) (seen state.old)) result state.new }
{
    tick(x.limit, state)?;
    let test = expr(x, units, condition, state)?;
    chosen(x, units, &test, place_of(condition), one, other, state)
}
