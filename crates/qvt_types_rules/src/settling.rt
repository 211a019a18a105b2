//! How a ruling settles a node, and what is told of what the node does to a run.

ghost use Rattle.std.specs.Prelude.{◌≡◌};
ghost use Rattle.qvt_types_context.specs.Seen.{seen};
ghost use Rattle.qvt_types_states.specs.Does.{GivesAndLeaves};
ghost use Rattle.qvt_types_context.specs.Calls as calls;
ghost use Rattle.qvt_types_context.specs.Rules as rule;

use qvt_base::list_fault::ListFault;
use qvt_base::numbers::{ExprNo, Place};
use qvt_types_context::context::Context;
use qvt_types_context::parts::Effect;
use qvt_types_data::note::Reading;
use qvt_types_data::refusal::RefusalKind;
use qvt_types_data::ruling::{Read, Ruling};
use qvt_types_data::ty::Ty;
use qvt_types_states::state::TypingState;
use qvt_types_states::steps::{answers, checked, fresh, marks, settled, writes_nothing};

/// What is told of a node that does this where nothing may be made or changed.
pub fn not_pure(x: &Context<'_>, effect: Effect) -> Option<RefusalKind>
    ensures { result ≡ calls.not_pure (seen x.now) effect }
{
    match effect {
        Effect::ImpureOne if x.pure => Some(RefusalKind::NotPure),
        _ => None,
    }
}

/// What is told of a node that does this in the condition of a resolve.
fn not_plain(x: &Context<'_>, effect: Effect) -> Option<RefusalKind>
    ensures { result ≡ calls.not_plain (seen x.now) effect }
{
    match effect {
        Effect::PlainOne => None,
        Effect::PureOne | Effect::ImpureOne => {
            if x.plain {
                Some(RefusalKind::NotPlain)
            } else {
                None
            }
        }
    }
}

/// Tells of a node what it does to a run where it may not. A node without a type does nothing.
pub fn tell_effect(
    x: &Context<'_>,
    effect: Effect,
    read: &Read,
    place: Place,
    state: &mut TypingState,
) -> Result<(), ListFault>
    ensures { GivesAndLeaves (rule.effect_told (seen x.now) effect read.now place state.old) result state.new }
{
    if read.answer.is_none() {
        return Ok(());
    }
    checked(not_pure(x, effect), place, state)?;
    checked(not_plain(x, effect), place, state)
}

/// Settles an expression by its ruling.
pub fn ruled(
    x: &Context<'_>,
    number: ExprNo,
    ruling: Ruling,
    effect: Effect,
    place: Place,
    state: &mut TypingState,
) -> Result<Option<Ty>, ListFault>
    ensures { GivesAndLeaves (rule.ruled (seen x.now) number ruling effect place state.old) result state.new }
{
    let read = settled(ruling, place, state)?;
    tell_effect(x, effect, &read, place, state)?;
    answers(x.alloc, number, read, state)
}

/// Settles a step by its ruling.
pub fn stepped(
    x: &Context<'_>,
    ruling: Ruling,
    effect: Effect,
    place: Place,
    state: &mut TypingState,
) -> Result<Option<Ty>, ListFault>
    ensures { GivesAndLeaves (rule.stepped (seen x.now) ruling effect place state.old) result state.new }
{
    let read = settled(ruling, place, state)?;
    tell_effect(x, effect, &read, place, state)?;
    marks(read, state)
}

/// An expression with the type of its last part, if that has one.
pub fn stands_as(
    x: &Context<'_>,
    number: ExprNo,
    ty: Option<Ty>,
    state: &mut TypingState,
) -> Result<Option<Ty>, ListFault>
    ensures { GivesAndLeaves (rule.stands_as number ty state.old) result state.new }
{
    answers(x.alloc, number, Read::plain(Reading::Nothing, ty), state)
}

/// A literal of this type.
#[tactic(auto, unfolding(qvt_typing::specs::Rules::constant))]
pub fn constant(x: &Context<'_>, ty: Ty, state: &mut TypingState) -> Result<Option<Ty>, ListFault>
    ensures { GivesAndLeaves (rule.constant ty state.old) result state.new }
{
    let number = fresh(state)?;
    stands_as(x, number, Some(ty), state)
}

/// Settles a part of which nothing but the type is kept, by its ruling.
pub fn settled_bare(
    ruling: Ruling,
    place: Place,
    state: &mut TypingState,
) -> Result<Option<Ty>, ListFault>
    ensures { GivesAndLeaves (rule.settled_bare ruling place state.old) result state.new }
{
    let read = settled(ruling, place, state)?;
    writes_nothing(state)?;
    Ok(read.into_answer())
}
