//! Assignments of values and late assignments (QVT 1.3, 8.2.2.11 AssignExp, 8.1.10).

ghost use Rattle.qvt_exec_resolves.specs.Nodes as nodes;
ghost use Rattle.qvt_exec_resolves.specs.Readings as by;
ghost use Rattle.qvt_types_nodes.specs.View.{typed_expr_view};
ghost use Rattle.qvt_exec_state.specs.Runs.{Runs, seen};
ghost use Rattle.qvt_exec_phrases.specs.Means.{expr_of, late_source_of, setting_of, target_of};

use crate::late::assign_late;
use qvt_base::numbers::Place;
use qvt_exec_phrases::engine::Engine;
use qvt_exec_phrases::nested::Nested;
use qvt_exec_phrases::units::ReadyUnits;
use qvt_exec_resolves::nodes::late_of;
use qvt_exec_state::state::RunState;
use qvt_exec_statements::assignments::assign_value;
use qvt_run_data::exit::Halt;
use qvt_types_nodes::tree::{TypedExpr, TypedTarget};

/// An assignment. A late resolve makes an entry, and any other value is assigned.
#[inline(never)]
pub(crate) fn assigned<C: Nested>(
    x: &Engine<'_>,
    units: &ReadyUnits<C>,
    target: &TypedTarget,
    adds: bool,
    node: &TypedExpr,
    sign: Place,
    state: &mut RunState<'_>,
) -> Result<(), Halt>
    ensures { Runs (by.assigned (setting_of (x.now, C.means units.now)) (nodes.late_of (typed_expr_view node.now)) (target_of (x.now, C.means units.now) target.now) adds (nodes.type_of (typed_expr_view node.now)) (expr_of (x.now, C.means units.now) node.now) (late_source_of (x.now, C.means units.now) node.now) sign (seen state.old)) result state.new }
{
    match late_of(node) {
        None => assign_value(x, units, target, adds, node, sign, state),
        Some(resolve) => assign_late(x, units, target, adds, node, resolve, sign, state),
    }
}
