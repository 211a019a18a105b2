//! Steps behind an expression.

ghost use Rattle.std.specs.Prelude.{map};
ghost use Rattle.qvt_tree_types.specs.View as view;
ghost use Rattle.qvt_types_rules.specs.Seen.{seen};
ghost use Rattle.qvt_types_states.specs.Does.{GivesAndLeaves};
ghost use Rattle.qvt_typing.specs.Phrases as phrase;
ghost use Rattle.qvt_typing.specs.Rules as rule;

use crate::arrows::arrowed;
use crate::calls::{called, map_step, model_step, property_step};
use crate::nested::NestedWalk;
use crate::resolves::resolve_step;
use qvt_base::list_fault::ListFault;
use qvt_tree_types::tree::Step;
use qvt_types_data::ty::Ty;
use qvt_types_rules::context::Context;
use qvt_types_rules::parts::is_last;
use qvt_types_states::state::TypingState;
use qvt_types_steps::resolves::Joint;

#[tactic(auto, unfolding(qvt_typing::specs::Phrases::step))]
fn step<C: NestedWalk>(
    x: &Context<'_>,
    inside: &C,
    late: bool,
    is_model: bool,
    step: &Step,
    source: &Option<Ty>,
    state: &mut TypingState,
) -> Result<Option<Ty>, ListFault>
    requires { C.ready inside.now }
    ensures { GivesAndLeaves (phrase.step (seen x.now) late is_model (view.step_view step.now) source.now state.old) result state.new }
{
    match step {
        Step::Dot { name, args, place } => match args {
            None => property_step(x, name, *place, source, state),
            Some(args) => {
                if is_model {
                    model_step(x, inside, name, args.as_slice(), *place, state)
                } else {
                    called(x, inside, name, args.as_slice(), *place, source, state)
                }
            }
        },
        Step::Arrow {
            name,
            head,
            args,
            place,
        } => arrowed(
            x,
            inside,
            name,
            head,
            args.as_slice(),
            *place,
            source,
            state,
        ),
        Step::DotMap(call) => map_step(x, inside, false, call, source, state),
        Step::ArrowMap(call) => map_step(x, inside, true, call, source, state),
        Step::DotResolve(call) => resolve_step(x, inside, late, Joint::Dot, call, source, state),
        Step::ArrowResolve(call) => {
            resolve_step(x, inside, late, Joint::Arrow, call, source, state)
        }
    }
}

/// Steps, each on what is before it: a late resolve may be the last, an operation of a model the first.
#[tactic(auto, unfolding(qvt_typing::specs::Phrases::steps))]
pub fn all_steps<C: NestedWalk>(
    x: &Context<'_>,
    inside: &C,
    late: bool,
    is_model: bool,
    first: Option<Ty>,
    list: &[Step],
    state: &mut TypingState,
) -> Result<Option<Ty>, ListFault>
    requires { C.ready inside.now }
    ensures { GivesAndLeaves (rule.beside first (phrase.steps (seen x.now) late is_model (view.steps_of (map view.step_view list.now))) state.old) result state.new }
{
    let mut ty = first;
    let mut is_first = is_model;
    for (at, next) in list.iter().enumerate() {
        ty = step(
            x,
            inside,
            late && is_last(list, at),
            is_first,
            next,
            &ty,
            state,
        )?;
        is_first = false;
    }
    Ok(ty)
}
