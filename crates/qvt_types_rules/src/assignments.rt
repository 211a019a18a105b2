//! The targets of assignments, and assignments whose parts are judged.

ghost use Rattle.std.specs.Prelude.{◌≡◌};
ghost use Rattle.qvt_types_data.specs.declared.refusal.RefusalKind.TheVariants as refusal;
ghost use Rattle.qvt_types_context.specs.Seen.{heads_seen, seen};
ghost use Rattle.qvt_types_states.specs.Does.{GivesAndLeaves};
ghost use Rattle.qvt_types_context.specs.Aims as aims;
ghost use Rattle.qvt_types_context.specs.Statements as rule_of;

use crate::settling::not_pure;
use qvt_base::list_fault::ListFault;
use qvt_base::numbers::Place;
use qvt_base::text::Text;
use qvt_types_context::aims::{aim_read, bare_aim, changes_property, member_aim, result_aim};
use qvt_types_context::context::{Context, Heads};
use qvt_types_context::parts::{Aim, Effect};
use qvt_types_data::refusal::RefusalKind;
use qvt_types_data::ty::Ty;
use qvt_types_states::state::TypingState;
use qvt_types_states::steps::{checked, marks, writes_nothing};
use qvt_types_words::rulings::{property_wrong, variable_wrong};
use qvt_types_words::types::value_type;

/// What is told where nothing has the name.
fn nowhere_told(kind: RefusalKind, aim: &Aim) -> Option<RefusalKind>
    ensures { result ≡ aims.nowhere_told kind aim.now }
{
    match aim {
        Aim::Nowhere => Some(kind),
        _ => None,
    }
}

/// Tells that nothing has the name, if so, and writes the note of the target.
fn aimed(
    x: &Context<'_>,
    missing: RefusalKind,
    place: Place,
    aim: Aim,
    state: &mut TypingState,
) -> Result<Aim, ListFault>
    ensures { GivesAndLeaves (rule_of.aimed missing place aim state.old) result state.new }
{
    checked(nowhere_told(missing, &aim), place, state)?;
    marks(aim_read(x.alloc, &aim)?, state)?;
    Ok(aim)
}

#[tactic(auto, unfolding(qvt_typing::specs::Statements::bare_target))]
pub fn bare_target(
    x: &Context<'_>,
    name: &Text,
    place: Place,
    state: &mut TypingState,
) -> Result<Aim, ListFault>
    ensures { GivesAndLeaves (rule_of.bare_target (seen x.now) name.now place state.old) result state.new }
{
    let aim = bare_aim(x, &state.scope, name.as_str())?;
    aimed(x, RefusalKind::UnknownName, place, aim, state)
}

#[tactic(auto, unfolding(qvt_typing::specs::Statements::result_target))]
pub fn result_target(
    x: &Context<'_>,
    place: Place,
    state: &mut TypingState,
) -> Result<Aim, ListFault>
    ensures { GivesAndLeaves (rule_of.result_target (seen x.now) place state.old) result state.new }
{
    let aim = result_aim(x)?;
    aimed(x, RefusalKind::ResultPlace, place, aim, state)
}

/// A property of an object of this type.
pub fn member_aimed(
    x: &Context<'_>,
    object: &Option<Ty>,
    name: &Text,
    place: Place,
    state: &mut TypingState,
) -> Result<Aim, ListFault>
    ensures { GivesAndLeaves (rule_of.aimed refusal.UnknownName place (aims.member_aim (heads_seen x.now.heads) name.now object.now) state.old) result state.new }
{
    let aim = member_aim(&x.heads, name.as_str(), object);
    aimed(x, RefusalKind::UnknownName, place, aim, state)
}

/// What is told of an assignment of a value of a type.
fn aimed_wrong(heads: &Heads<'_>, adds: bool, aim: &Aim, ty: &Ty) -> Option<RefusalKind>
    ensures { result ≡ aims.aimed_wrong (heads_seen heads.now) adds aim.now ty.now }
{
    match aim {
        Aim::Nowhere => None,
        Aim::UntypedProperty => None,
        Aim::UntypedVariable => None,
        Aim::Fixed => Some(RefusalKind::BadTarget),
        Aim::VariableOf(_, variable) => variable_wrong(heads.units.metas(), adds, variable, ty),
        Aim::Property(_, feature) => {
            let shape = heads.units.metas().shape(*feature);
            let single = shape.upper == Some(1);
            property_wrong(
                heads.units.metas(),
                adds,
                single,
                &value_type(shape.kind),
                ty,
            )
        }
    }
}

/// Tells what is wrong with an assignment whose target and value are judged.
#[tactic(auto, unfolding(qvt_typing::specs::Statements::assigned))]
pub fn assigned(
    x: &Context<'_>,
    aim: &Aim,
    adds: bool,
    value: &Option<Ty>,
    place: Place,
    state: &mut TypingState,
) -> Result<(), ListFault>
    ensures { GivesAndLeaves (rule_of.assigned (seen x.now) aim.now adds value.now place state.old) result state.new }
{
    if let Some(ty) = value {
        if changes_property(aim) {
            checked(not_pure(x, Effect::ImpureOne), place, state)?;
        }
        checked(aimed_wrong(&x.heads, adds, aim, ty), place, state)?;
    }
    writes_nothing(state)
}
