//! New objects: their variable, their class, their extent, their constructor.

ghost use Rattle.std.specs.Prelude.{◌≡◌, IfOk, length};
ghost use Rattle.qvt_types_context.specs.Seen.{seen};
ghost use Rattle.qvt_types_states.specs.Does.{GivesAndLeaves};
ghost use Rattle.qvt_types_states.specs.Scopes.{found};
ghost use Rattle.qvt_types_lists.specs.Numbers.{constructor_of};
ghost use Rattle.qvt_types_context.specs.Phrases as phrase;
ghost use Rattle.qvt_types_context.specs.Rules as rule;

use crate::settling::tell_effect;
use qvt_base::list_fault::ListFault;
use qvt_base::numbers::{ClassNo, ExprNo, Place};
use qvt_base::seq::Seq;
use qvt_base::text::Text;
use qvt_tree_types::types::ObjectVar;
use qvt_types_context::calls::{no_unit, unit_at};
use qvt_types_context::context::Context;
use qvt_types_context::names::{made_read, result_ruled, variable_ruled};
use qvt_types_context::parts::{Effect, ObjectVariable};
use qvt_types_data::refusal::RefusalKind;
use qvt_types_data::ruling::Ruling;
use qvt_types_data::ty::{Ty, same};
use qvt_types_data::variable::VariableSort;
use qvt_types_paths::extents::extent;
use qvt_types_states::scope::Scope;
use qvt_types_states::state::TypingState;
use qvt_types_states::steps::{answers, marks, settled, tell};
use qvt_types_steps::classes::ClassPart;
use qvt_types_steps::units::arguments_wrong;

fn variable_of_type(ty: Option<Ty>) -> ObjectVariable
    ensures { result ≡ rule.variable_of_type ty }
{
    match ty {
        None => ObjectVariable::OfNone,
        Some(ty) => ObjectVariable::OfType(ty),
    }
}

/// What is ruled of the name of an object expression's variable: no parameter and no iterator.
fn settable_ruled(x: &Context<'_>, scope: &Scope, name: &str) -> Result<Ruling, ListFault>
    ensures { IfOk result (λ r. r ≡ rule.settable_ruled name.now (found name.now scope.now)) }
{
    let Some(known) = scope.find(name) else {
        return Ok(Ruling::Fails(RefusalKind::UnknownName));
    };
    match known.sort {
        VariableSort::Settable => variable_ruled(x.alloc, name, &known.ty),
        _ => Ok(Ruling::Fails(RefusalKind::UnknownName)),
    }
}

/// The variable of an object expression.
#[tactic(auto, unfolding(qvt_typing::specs::Rules::no_variable, qvt_typing::specs::Rules::named_variable, qvt_typing::specs::Rules::result_variable))]
pub fn object_variable(
    x: &Context<'_>,
    variable: &Option<ObjectVar>,
    state: &mut TypingState,
) -> Result<ObjectVariable, ListFault>
    ensures { GivesAndLeaves (phrase.object_variable (seen x.now) variable.now state.old) result state.new }
{
    match variable {
        None => Ok(ObjectVariable::NoVariable),
        Some(ObjectVar::Named { name, place }) => {
            let ruling = settable_ruled(x, &state.scope, name.as_str())?;
            let read = settled(ruling, *place, state)?;
            Ok(variable_of_type(marks(read, state)?))
        }
        Some(ObjectVar::ResultVar { place }) => {
            let read = settled(result_ruled(x.alloc, x.result)?, *place, state)?;
            Ok(variable_of_type(marks(read, state)?))
        }
    }
}

/// Tells that the class of a new object is abstract.
pub fn tell_abstract(
    x: &Context<'_>,
    class: ClassPart,
    place: Place,
    state: &mut TypingState,
) -> Result<(), ListFault>
    ensures { GivesAndLeaves (rule.abstract_told (seen x.now) class place state.old) result state.new }
{
    match class {
        ClassPart::Class(class) if x.heads.units.metas().is_abstract(class) => {
            tell(RefusalKind::AbstractClass, place, state)
        }
        _ => Ok(()),
    }
}

/// The extent of new objects of the class, where a name may stand after `@`.
pub fn extent_of(x: &Context<'_>, name: &Option<Text>, class: ClassNo) -> Option<u32>
    ensures { result ≡ rule.extent_of (seen x.now) name.now class }
{
    let last = x.heads.given.metamodel_count();
    let metamodel = x.heads.units.metas().metamodel_of(class);
    extent(x.heads.models, last, name, metamodel)
}

/// Tells that there is no extent for a new object of the class.
pub fn tell_extent(
    x: &Context<'_>,
    name: &Option<Text>,
    class: ClassPart,
    place: Place,
    state: &mut TypingState,
) -> Result<(), ListFault>
    ensures { GivesAndLeaves (rule.class_extent_told (seen x.now) name.now class place state.old) result state.new }
{
    let ClassPart::Class(class) = class else {
        return Ok(());
    };
    match extent_of(x, name, class) {
        None => tell(RefusalKind::BadExtent, place, state),
        Some(_) => Ok(()),
    }
}

/// What is ruled of a new object of the class.
fn made(x: &Context<'_>, name: &Option<Text>, class: ClassNo) -> Ruling
    ensures { result ≡ rule.made_in class (rule.extent_of (seen x.now) name.now class) }
{
    Ruling::Holds(made_read(class, extent_of(x, name, class)))
}

/// The class of an object whose variable has a type.
pub fn class_beside(variable: &ObjectVariable, class: ClassPart) -> ClassPart
    ensures { result ≡ rule.class_beside variable.now class }
{
    match variable {
        ObjectVariable::OfNone => ClassPart::Untyped,
        _ => class,
    }
}

/// What is ruled of an object expression: its variable has exactly the class as its type.
pub fn object_ruled(
    x: &Context<'_>,
    variable: &ObjectVariable,
    name: &Option<Text>,
    class: ClassPart,
) -> Ruling
    ensures { result ≡ rule.object_ruled (seen x.now) variable.now name.now class }
{
    let ClassPart::Class(class) = class else {
        return Ruling::Silent;
    };
    match variable {
        ObjectVariable::NoVariable => made(x, name, class),
        ObjectVariable::OfNone => Ruling::Silent,
        ObjectVariable::OfType(ty) => {
            if same(ty, &Ty::Class(class)) {
                made(x, name, class)
            } else {
                Ruling::Fails(RefusalKind::WrongType)
            }
        }
    }
}

/// What is ruled of a `new` by the types of its arguments.
fn constructed_by(
    x: &Context<'_>,
    name: &Option<Text>,
    class: ClassNo,
    types: &[Ty],
) -> Result<Ruling, ListFault>
    ensures { IfOk result (λ r. r ≡ rule.constructed_by (seen x.now) class name.now (constructor_of class.0 (length types.now) x.now.heads.units.now.units) types.now) }
{
    match x.heads.units.names().constructor_of(class, types.len()) {
        Some(number) => {
            let none = no_unit(x.alloc);
            let unit = unit_at(x.heads.units, number, &none);
            match arguments_wrong(x.heads.units.metas(), unit.params.as_slice(), types) {
                None => Ok(made(x, name, class)),
                Some(kind) => Ok(Ruling::Fails(kind)),
            }
        }
        None if types.is_empty() => Ok(made(x, name, class)),
        None => Ok(Ruling::Fails(RefusalKind::WrongCount)),
    }
}

/// What is ruled of a `new`.
fn new_ruled(
    x: &Context<'_>,
    name: &Option<Text>,
    class: ClassPart,
    types: &Option<Seq<Ty>>,
) -> Result<Ruling, ListFault>
    ensures { IfOk result (λ r. r ≡ rule.new_ruled (seen x.now) name.now class types.now) }
{
    let ClassPart::Class(class) = class else {
        return Ok(Ruling::Silent);
    };
    match types {
        None => Ok(Ruling::Silent),
        Some(types) => constructed_by(x, name, class, types.as_slice()),
    }
}

fn new_place(ruling: &Ruling, path: Place, place: Place) -> Place
    ensures { result ≡ rule.new_place ruling.now path place }
{
    match ruling {
        Ruling::Fails(RefusalKind::WrongCount) => path,
        _ => place,
    }
}

/// Settles a `new` whose class and arguments are judged.
#[tactic(auto, unfolding(qvt_typing::specs::Rules::constructed))]
pub fn constructed(
    x: &Context<'_>,
    number: ExprNo,
    class: (ClassPart, Place),
    name: &Option<Text>,
    types: &Option<Seq<Ty>>,
    place: Place,
    state: &mut TypingState,
) -> Result<Option<Ty>, ListFault>
    ensures { GivesAndLeaves (rule.constructed (seen x.now) number class.0 class.1 name.now types.now place state.old) result state.new }
{
    let beside = if types.is_some() {
        class.0
    } else {
        ClassPart::Untyped
    };
    tell_extent(x, name, beside, place, state)?;
    let ruling = new_ruled(x, name, class.0, types)?;
    let at = new_place(&ruling, class.1, place);
    let read = settled(ruling, at, state)?;
    tell_effect(x, Effect::ImpureOne, &read, place, state)?;
    answers(x.alloc, number, read, state)
}
