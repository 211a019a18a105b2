//! Late resolves among nodes (QVT 1.3, 8.1.10).

ghost use Rattle.std.specs.Prelude.{◌≡◌, map, option_map, Option};
ghost use Rattle.std.specs.Option.{option_copied};
ghost use Rattle.qvt_run_data.specs.declared.late.LateWrite.{LateWrite};
ghost use Rattle.qvt_run_rules.specs.Calls.{CallRule};
ghost use Rattle.qvt_types_data.specs.declared.ty.Ty.{Ty};
ghost use Rattle.qvt_types_nodes.specs.View.{typed_expr_view, typed_resolve_view, typed_step_view, typed_steps_of};
ghost use Rattle.qvt_meaning.specs.Nodes as nodes;
ghost use Rattle.qvt_meaning.specs.Phrases.{but_last, steps as steps_mean};
ghost use Rattle.qvt_meaning.specs.Readings.{Setting};
ghost use Rattle.qvt_exec_resolves.specs.Late.{late_step};

use qvt_types_nodes::tree::{TypedExpr, TypedResolveCall, TypedStep};

/// The resolve, if it is late.
#[tactic(auto, using(crate::proofs::LateSteps::is_late, crate::proofs::LateSteps::not_late))]
fn late_in(node: &TypedResolveCall) -> Option<&TypedResolveCall>
    ensures { option_map typed_resolve_view (option_copied result) ≡ nodes.late_in (typed_resolve_view node.now) }
{
    if node.late { Some(node) } else { None }
}

/// The late resolve that a step is.
fn late_step(step: &TypedStep) -> Option<&TypedResolveCall>
    ensures { option_map typed_resolve_view (option_copied result) ≡ late_step (typed_step_view step.now) }
{
    match step {
        TypedStep::DotResolve(node) => late_in(node),
        TypedStep::ArrowResolve(node) => late_in(node),
        _ => None,
    }
}

/// The late resolve that is the last of the steps.
#[tactic(auto, using(crate::proofs::LateSteps::none_last, crate::proofs::LateSteps::at_last))]
pub fn last_late(steps: &[TypedStep]) -> Option<&TypedResolveCall>
    ensures { option_map typed_resolve_view (option_copied result) ≡ nodes.last_late (typed_steps_of (map typed_step_view steps.now)) }
{
    if steps.is_empty() {
        return None;
    }
    late_step(&steps[steps.len() - 1])
}

/// The late resolve that the whole expression is.
pub fn late_of(node: &TypedExpr) -> Option<&TypedResolveCall>
    ensures { option_map typed_resolve_view (option_copied result) ≡ nodes.late_of (typed_expr_view node.now) }
{
    match node {
        TypedExpr::Resolve(node) => late_in(node),
        TypedExpr::Post { steps, .. } => last_late(steps.as_slice()),
        _ => None,
    }
}

/// The steps but the last: those that stand before a late resolve. They do what they do before it.
#[tactic(auto, using(crate::proofs::LateSteps::steps_before))]
pub fn before_last(steps: &[TypedStep]) -> &[TypedStep]
    ensures steps { result.now ≡ but_last steps.now }
    ensures does { (x : Setting LateWrite) (calls : CallRule LateWrite) (answer o : Option Ty) → steps_mean x calls answer o (typed_steps_of (map typed_step_view result.now)) ≡ but_last (steps_mean x calls answer o (typed_steps_of (map typed_step_view steps.now))) }
{
    let (before, _) = steps.split_at(steps.len().saturating_sub(1));
    before
}
