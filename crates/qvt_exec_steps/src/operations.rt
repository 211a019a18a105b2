//! Operations of the standard library as steps.

ghost use Rattle.std.specs.Prelude.{map};
ghost use Rattle.qvt_types_nodes.specs.View.{typed_expr_view, typed_exprs_of};
ghost use Rattle.qvt_types_words.specs.OperationNames as names;
ghost use Rattle.qvt_exec_types.specs.Nodes as nodes;
ghost use Rattle.qvt_exec_types.specs.Readings as by;
ghost use Rattle.qvt_exec_leaves.specs.Runs.{Runs, seen};
ghost use Rattle.qvt_exec_invocations.specs.Means.{exprs_of, setting_of};

use crate::values::values;
use qvt_base::numbers::Place;
use qvt_base::text::Text;
use qvt_exec_invocations::engine::Engine;
use qvt_exec_invocations::nested::Nested;
use qvt_exec_invocations::units::ReadyUnits;
use qvt_exec_leaves::applied::called_on;
use qvt_exec_leaves::nodes::class_argument;
use qvt_exec_leaves::state::RunState;
use qvt_exec_leaves::steps::tested_by;
use qvt_exec_loops::steps::{misfit, tick};
use qvt_run_data::exit::Halt;
use qvt_types_nodes::tree::TypedExpr;
use qvt_types_steps::classes::class_test_named;
use qvt_types_words::operation_names::operation_named;
use qvt_value::value::Value;

/// An operation by its name, whose arguments are evaluated once, whatever the source is.
#[inline(never)]
#[tactic(auto, unfolding(qvt_run_rules::specs::Expressions::called))]
pub fn operation_by<C: Nested>(
    x: &Engine<'_>,
    units: &ReadyUnits<C>,
    args: &[TypedExpr],
    name: &Text,
    collect: bool,
    place: Place,
    value: Value,
    state: &mut RunState<'_>,
) -> Result<Value, Halt>
    ensures { Runs (by.operation_by (setting_of (x.now, C.means units.now)) (names.operation_named name.now) (exprs_of (x.now, C.means units.now) args.now) collect place value (seen state.old)) result state.new }
{
    match operation_named(name.as_str()) {
        Some(op) => {
            tick(x.limit, state)?;
            let given = values(x, units, args, state)?;
            called_on(x.alloc, op, collect, given.as_slice(), place, value, state)
        }
        None => misfit(place),
    }
}

/// A test or cast with a class, or an operation with values.
#[inline(always)]
pub fn operation_step<C: Nested>(
    x: &Engine<'_>,
    units: &ReadyUnits<C>,
    args: &[TypedExpr],
    name: &Text,
    collect: bool,
    place: Place,
    value: Value,
    state: &mut RunState<'_>,
) -> Result<Value, Halt>
    ensures { Runs (by.operation_step (setting_of (x.now, C.means units.now)) name.now (exprs_of (x.now, C.means units.now) args.now) (nodes.class_argument (typed_exprs_of (map typed_expr_view args.now))) collect place value (seen state.old)) result state.new }
{
    match class_test_named(name.as_str()) {
        Some(test) => {
            let class = class_argument(args);
            tested_by(x.alloc, x.limit, test, class, collect, place, value, state)
        }
        None => operation_by(x, units, args, name, collect, place, value, state),
    }
}
