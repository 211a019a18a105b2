//! Names: variables, models, properties of implicit sources, literals, `self` and `result`.

ghost use Rattle.std.specs.Prelude.{◌≡◌, IfOk};
ghost use Rattle.qvt_types_context.specs.Seen.{heads_seen};
ghost use Rattle.qvt_typing.specs.Names as names;

use crate::context::Heads;
use qvt_base::copied::Copied;
use qvt_base::list_fault::ListFault;
use qvt_base::numbers::ClassNo;
use qvt_base::text::Text;
use qvt_types_data::note::Reading;
use qvt_types_data::refusal::RefusalKind;
use qvt_types_data::ruling::{Read, Ruling};
use qvt_types_data::ty::{Ty, copied};
use qvt_types_data::variable::{Variable, VariableSort};
use qvt_types_groups::paths::path_literal;
use qvt_types_states::scope::Scope;
use qvt_typing::classes::ClassPart;
use qvt_typing::sources::model_or;
use qvt_value::value::LiteralRef;
use std::alloc::Global;

/// The type of the objects of a class, if it is known.
pub fn class_type(class: ClassPart) -> Option<Ty>
    ensures { result ≡ names.class_type class }
{
    match class {
        ClassPart::Class(class) => Some(Ty::Class(class)),
        ClassPart::Untyped => None,
        ClassPart::Missing => None,
    }
}

/// What is ruled of a path that is to name a type.
pub fn type_ruled(alloc: Global, ty: Result<Ty, RefusalKind>) -> Result<Ruling, ListFault>
    ensures { IfOk result (λ r. r ≡ names.type_ruled ty) }
{
    match ty {
        Ok(ty) => {
            let answer = ty.copy(alloc)?;
            Ok(Ruling::Holds(Read::plain(Reading::Typed(ty), Some(answer))))
        }
        Err(kind) => Ok(Ruling::Fails(kind)),
    }
}

/// What is ruled of a path that is to name a class.
pub fn class_ruled(class: Result<ClassNo, RefusalKind>) -> Ruling
    ensures { result ≡ names.class_ruled class }
{
    match class {
        Ok(class) => {
            let reading = Reading::Typed(Ty::Class(class));
            Ruling::Holds(Read::plain(reading, Some(Ty::Class(class))))
        }
        Err(kind) => Ruling::Fails(kind),
    }
}

/// The class that a path names, Untyped where it names none.
pub fn class_found(class: Result<ClassNo, RefusalKind>) -> ClassPart
    ensures { result ≡ names.class_found class }
{
    match class {
        Ok(class) => ClassPart::Class(class),
        Err(_) => ClassPart::Untyped,
    }
}

/// How a class is read of which an object is made, in an extent if there is one.
pub fn made_read(class: ClassNo, extent: Option<u32>) -> Read
    ensures { result ≡ names.made_read class extent }
{
    let reading = match extent {
        None => Reading::Nothing,
        Some(extent) => Reading::Make(class, extent),
    };
    Read::plain(reading, Some(Ty::Class(class)))
}

/// What is ruled of a path that is to name a literal.
fn literal_ruled(literal: Result<LiteralRef, RefusalKind>) -> Ruling
    ensures { result ≡ names.literal_ruled literal }
{
    match literal {
        Ok(literal) => {
            let reading = Reading::Literal(literal.metamodel, literal.enumeration, literal.literal);
            let ty = Ty::Enum(literal.metamodel, literal.enumeration);
            Ruling::Holds(Read::plain(reading, Some(ty)))
        }
        Err(kind) => Ruling::Fails(kind),
    }
}

/// What is ruled of a variable of this name and type.
pub fn variable_ruled(alloc: Global, name: &str, ty: &Option<Ty>) -> Result<Ruling, ListFault>
    ensures { IfOk result (λ r. r ≡ names.variable_ruled name.now ty.now) }
{
    let name = Text::from_str(alloc, name)?;
    let answer = copied(alloc, ty)?;
    Ok(Ruling::Holds(Read::plain(Reading::Variable(name), answer)))
}

/// What is ruled of the variable of this name that holds an object of a class, where it is in scope.
fn held_ruled(
    alloc: Global,
    name: &str,
    missing: RefusalKind,
    class: ClassPart,
) -> Result<Ruling, ListFault>
    ensures { IfOk result (λ r. r ≡ names.held_ruled name.now missing class) }
{
    match class {
        ClassPart::Class(class) => variable_ruled(alloc, name, &Some(Ty::Class(class))),
        ClassPart::Untyped => Ok(Ruling::Silent),
        ClassPart::Missing => Ok(Ruling::Fails(missing)),
    }
}

/// What is ruled of `self`.
pub fn self_ruled(alloc: Global, class: ClassPart) -> Result<Ruling, ListFault>
    ensures { IfOk result (λ r. r ≡ names.self_ruled class) }
{
    held_ruled(alloc, "#self", RefusalKind::UnknownName, class)
}

/// What is ruled of `result`.
pub fn result_ruled(alloc: Global, class: ClassPart) -> Result<Ruling, ListFault>
    ensures { IfOk result (λ r. r ≡ names.result_ruled class) }
{
    held_ruled(alloc, "#result", RefusalKind::ResultPlace, class)
}

/// What is ruled of a name alone.
#[tactic(auto, unfolding(qvt_typing::specs::Names::name_ruled))]
fn name_ruled(
    alloc: Global,
    heads: &Heads<'_>,
    is_source: bool,
    scope: &Scope,
    name: &str,
) -> Result<Ruling, ListFault>
    ensures { IfOk result (λ r. r ≡ names.name_ruled (heads_seen heads.now) is_source scope.now name.now) }
{
    match scope.find(name) {
        Some(known) => variable_ruled(alloc, name, &known.ty),
        None => {
            let model = heads.models.names.place(name);
            model_or(
                alloc,
                heads.units.metas(),
                heads.first,
                heads.typed,
                is_source,
                scope.sources(),
                name,
                model,
            )
        }
    }
}

/// What is ruled of a path; that of a model may stand before a model's operation alone.
pub fn path_ruled(
    alloc: Global,
    heads: &Heads<'_>,
    is_source: bool,
    scope: &Scope,
    path: &[Text],
) -> Result<Ruling, ListFault>
    ensures { IfOk result (λ r. r ≡ names.path_ruled (heads_seen heads.now) is_source scope.now path.now) }
{
    match path {
        [name] => name_ruled(alloc, heads, is_source, scope, name.as_str()),
        _ => Ok(literal_ruled(path_literal(heads.given, heads.types, path))),
    }
}

/// Whether the path is the name of a model, and of no variable.
pub fn names_model(heads: &Heads<'_>, scope: &Scope, path: &[Text]) -> bool
    ensures { result ≡ names.names_model (heads_seen heads.now) scope.now path.now }
{
    match path {
        [name] => match scope.find(name.as_str()) {
            Some(_) => false,
            None => heads.models.names.place(name.as_str()).is_some(),
        },
        _ => false,
    }
}

/// The name of an iterator or a filter without one, by how many of them stand around it.
pub fn unnamed(alloc: Global, scope: &Scope) -> Result<Text, ListFault>
    ensures { IfOk result (λ t. t ≡ names.unnamed scope.now) }
{
    let count = scope
        .sources()
        .iter()
        .filter(|v| v.name.as_str() != "#self")
        .count();
    match format!(in alloc; "#{count}") {
        Ok(text) => Ok(Text::from_string(text)),
        Err(_) => Err(ListFault::NoMemory),
    }
}

/// An implicit source.
pub fn source(name: Text, ty: Option<Ty>) -> Variable
    ensures { result ≡ names.source name ty }
{
    Variable {
        name,
        sort: VariableSort::Implicit,
        ty,
    }
}
