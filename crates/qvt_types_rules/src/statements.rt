//! Statements whose parts are judged.

ghost use Rattle.std.specs.Prelude.{◌≡◌};
ghost use Rattle.qvt_types_context.specs.Seen.{seen};
ghost use Rattle.qvt_types_states.specs.Does.{GivesAndLeaves};
ghost use Rattle.qvt_types_states.specs.Judge as checking;
ghost use Rattle.std.specs.List.{list_all};
ghost use Rattle.qvt_types_data.specs.declared.ty.Ty.TheVariants as booleans;
ghost use Rattle.qvt_types_words.specs.Rulings as ruling;
ghost use Rattle.qvt_types_words.specs.Types.{conforms as conforms_to};
ghost use Rattle.qvt_types_context.specs.Statements as rule_of;

use qvt_base::list_fault::ListFault;
use qvt_base::numbers::Place;
use qvt_base::seq::Seq;
use qvt_base::text::Text;
use qvt_types_context::context::{Context, Returns};
use qvt_types_context::parts::Given;
use qvt_types_data::note::Reading;
use qvt_types_data::refusal::RefusalKind;
use qvt_types_data::ruling::Read;
use qvt_types_data::ty::Ty;
use qvt_types_data::variable::VariableSort;
use qvt_types_states::scope::Known;
use qvt_types_states::state::TypingState;
use qvt_types_states::steps::{checked, declare, marks, writes_nothing};
use qvt_types_steps::calls::is_single_type;
use qvt_types_steps::heads::{item_type, iterator_type, iterator_wrong};
use qvt_types_words::rulings::{var_type, var_wrong};
use qvt_types_words::types::conforms;

/// Declares a variable whose type and value are judged.
#[tactic(auto, unfolding(qvt_typing::specs::Statements::declared))]
pub fn declared(
    x: &Context<'_>,
    name: &Text,
    kind: &Given,
    value: &Given,
    place: Place,
    state: &mut TypingState,
) -> Result<(), ListFault>
    ensures { GivesAndLeaves (rule_of.declared (seen x.now) name.now kind.now value.now place state.old) result state.new }
{
    let wrong = var_wrong(
        x.heads.units.metas(),
        kind.is_given,
        &kind.ty,
        value.is_given,
        &value.ty,
    );
    checked(wrong, place, state)?;
    let known = Known {
        sort: VariableSort::Settable,
        ty: var_type(x.alloc, kind.is_given, &kind.ty, &value.ty)?,
    };
    declare(x.alloc, name.as_str(), known, place, state)?;
    writes_nothing(state)
}

/// What is told where a value is to conform to a type.
fn conforms_told(x: &Context<'_>, ty: &Option<Ty>, value: &Option<Ty>) -> Option<RefusalKind>
    ensures { result ≡ rule_of.conforms_told (seen x.now) ty.now value.now }
{
    match (ty, value) {
        (Some(ty), Some(value)) => {
            if conforms(x.heads.units.metas(), value, ty) {
                None
            } else {
                Some(RefusalKind::WrongType)
            }
        }
        _ => None,
    }
}

/// What is told of a `return`.
fn return_told(x: &Context<'_>, value: &Given) -> Option<RefusalKind>
    ensures { result ≡ rule_of.return_told (seen x.now) (seen x.now).returns value.now.is_given value.now.ty }
{
    match x.returns {
        Returns::Value(ty) => {
            if value.is_given {
                conforms_told(x, ty, &value.ty)
            } else {
                Some(RefusalKind::BadReturn)
            }
        }
        Returns::NoValue => {
            if value.is_given && value.ty.is_some() {
                Some(RefusalKind::BadReturn)
            } else {
                None
            }
        }
        Returns::Never => {
            if value.is_given && value.ty.is_none() {
                None
            } else {
                Some(RefusalKind::BadReturn)
            }
        }
    }
}

/// Tells what is wrong with a `return` whose value is judged.
#[tactic(auto, unfolding(qvt_typing::specs::Statements::returned))]
pub fn returned(
    x: &Context<'_>,
    value: &Given,
    place: Place,
    state: &mut TypingState,
) -> Result<(), ListFault>
    ensures { GivesAndLeaves (rule_of.returned (seen x.now) value.now place state.old) result state.new }
{
    checked(return_told(x, value), place, state)?;
    writes_nothing(state)
}

/// Tells that a condition is no Boolean.
pub fn tell_condition(
    x: &Context<'_>,
    condition: &Option<Ty>,
    place: Place,
    state: &mut TypingState,
) -> Result<(), ListFault>
    ensures { GivesAndLeaves (rule_of.condition_checked (seen x.now) condition.now place state.old) result state.new }
{
    checked(
        conforms_told(x, &Some(Ty::Boolean), condition),
        place,
        state,
    )
}

/// Whether the condition is a Boolean, where it has a type.
fn is_condition(x: &Context<'_>, condition: &Option<Ty>) -> bool
    ensures { result ≡ rule_of.is_condition (seen x.now) condition.now }
{
    match condition {
        None => true,
        Some(ty) => conforms(x.heads.units.metas(), ty, &Ty::Boolean),
    }
}

fn all_boolean(x: &Context<'_>, types: &[Ty]) -> bool
    ensures { result ≡ list_all (λ t. conforms_to x.now.heads.units.now.metas t booleans.Boolean) types.now }
{
    for ty in types {
        if !conforms(x.heads.units.metas(), ty, &Ty::Boolean) {
            return false;
        }
    }
    true
}

/// Whether all conditions are Booleans, where all have types.
fn are_conditions(x: &Context<'_>, types: &Option<Seq<Ty>>) -> bool
    ensures { result ≡ rule_of.are_conditions (seen x.now) types.now }
{
    match types {
        None => true,
        Some(types) => all_boolean(x, types.as_slice()),
    }
}

fn wrong_unless(right: bool) -> Option<RefusalKind>
    ensures { result ≡ ruling.wrong_unless right }
{
    if right {
        None
    } else {
        Some(RefusalKind::WrongType)
    }
}

/// Tells that a condition of an `if` is no Boolean.
pub fn tell_conditions(
    x: &Context<'_>,
    types: &Option<Seq<Ty>>,
    place: Place,
    state: &mut TypingState,
) -> Result<(), ListFault>
    ensures { GivesAndLeaves (checking.checked (ruling.wrong_unless (rule_of.are_conditions (seen x.now) types.now)) place state.old) result state.new }
{
    checked(wrong_unless(are_conditions(x, types)), place, state)
}

fn has_type(given: &Given) -> bool
    ensures { result ≡ rule_of.has_type given.now }
{
    !given.is_given || given.ty.is_some()
}

/// What is told of a `forEach` over items of a type.
fn for_each_told(
    x: &Context<'_>,
    items: &Option<Ty>,
    kind: &Given,
    condition: &Given,
) -> Option<RefusalKind>
    ensures { result ≡ rule_of.for_each_told (seen x.now) items.now kind.now condition.now }
{
    if !(items.is_some() && (has_type(kind) && has_type(condition))) {
        return None;
    }
    let wrong = iterator_wrong(x.heads.units.metas(), kind.is_given, &kind.ty, items);
    wrong_unless(wrong.is_none() && is_condition(x, &condition.ty))
}

/// Declares a `forEach`'s variable.
pub fn declare_iterator(
    x: &Context<'_>,
    source: &Option<Ty>,
    name: &Text,
    kind: &Given,
    place: Place,
    state: &mut TypingState,
) -> Result<(), ListFault>
    ensures { GivesAndLeaves (rule_of.for_each_declared (seen x.now) source.now name.now kind.now place state.old) result state.new }
{
    let items = item_type(x.alloc, source)?;
    let known = Known {
        sort: VariableSort::Settable,
        ty: iterator_type(x.alloc, kind.is_given, &kind.ty, &items)?,
    };
    declare(x.alloc, name.as_str(), known, place, state)
}

/// How a `forEach` is read: a single value is wrapped.
fn wraps(source: &Option<Ty>) -> Read
    ensures { result ≡ rule_of.wraps source.now }
{
    match source {
        None => Read::plain(Reading::Nothing, None),
        Some(ty) => Read {
            reading: Reading::Nothing,
            source: None,
            wrap: is_single_type(ty),
            collect: false,
            answer: None,
        },
    }
}

/// Settles a `forEach` whose parts are judged.
pub fn for_each_settled(
    x: &Context<'_>,
    source: &Option<Ty>,
    kind: &Given,
    condition: &Given,
    place: Place,
    state: &mut TypingState,
) -> Result<(), ListFault>
    ensures { GivesAndLeaves (rule_of.for_each_settled (seen x.now) source.now kind.now condition.now place state.old) result state.new }
{
    let items = item_type(x.alloc, source)?;
    checked(for_each_told(x, &items, kind, condition), place, state)?;
    marks(wraps(source), state)?;
    Ok(())
}
