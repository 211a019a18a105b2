//! Types, classes and literals by their paths.

ghost use Rattle.std.specs.Prelude.{◌≡◌, Result, Ok, Err, IfOk};
ghost use Rattle.qvt_tree_types.specs.View.{type_view};
ghost use Rattle.qvt_types_data.specs.declared.ty.Ty.{out-Ty};
ghost use Rattle.qvt_types_paths.specs.Paths as paths;

use crate::model_types::TypeNames;
use qvt_base::list_fault::ListFault;
use qvt_base::numbers::{ClassNo, Place};
use qvt_base::text::Text;
use qvt_metas::metas::Metas;
use qvt_tree_types::types::TypeTree;
use qvt_tree_types::words::CollKind;
use qvt_types_data::boxed::Boxed;
use qvt_types_data::refusal::{RefusalKind, TypingRefusal};
use qvt_types_data::ty::Ty;
use qvt_value::value::LiteralRef;
use std::alloc::Global;

/// How often a type of a name was met.
#[derive(Drop)]
pub enum Met {
    Nowhere,
    Once(Ty),
    Often,
}

/// The class or enumeration of this name in a metamodel.
fn type_in(metas: &Metas, metamodel: u32, name: &str) -> Option<Ty>
    ensures { result ≡ paths.type_in metas.now metamodel name.now }
{
    match metas.class(metamodel, name) {
        Some(class) => Some(Ty::Class(class)),
        None => match metas.enumeration(metamodel, name) {
            None => None,
            Some(enumeration) => Some(Ty::Enum(metamodel, enumeration)),
        },
    }
}

/// The first intermediate class of this name, as a type.
fn intermediate(names: &TypeNames, name: &str) -> Option<Ty>
    ensures { result ≡ paths.intermediate names.now name.now }
{
    match names.intermediate(name) {
        None => None,
        Some(class) => Some(Ty::Class(class)),
    }
}

fn met_also(met: Met, t: Option<Ty>) -> Met
    ensures { result ≡ paths.met_also met t }
{
    match t {
        None => met,
        Some(t) => match met {
            Met::Nowhere => Met::Once(t),
            Met::Once(_) => Met::Often,
            Met::Often => Met::Often,
        },
    }
}

#[tactic(auto, unfolding(crate::specs::Paths::met_next))]
fn met_next(metas: &Metas, name: &str, met: Met, metamodel: u32) -> Met
    ensures { result ≡ paths.met_next metas.now name.now met metamodel }
{
    met_also(met, type_in(metas, metamodel, name))
}

/// How often a type of this name is met in these metamodels too.
fn met_in(metas: &Metas, name: &str, met: Met, used: &[u32]) -> Met
    ensures { result ≡ paths.met_in metas.now name.now met used.now }
{
    let mut met = met;
    for metamodel in used {
        met = met_next(metas, name, met, *metamodel);
    }
    met
}

fn known(t: Option<Ty>) -> Result<Ty, RefusalKind>
    ensures { result ≡ paths.known t }
{
    match t {
        None => Err(RefusalKind::UnknownType),
        Some(t) => Ok(t),
    }
}

/// The types that need no metamodel.
#[tactic(auto, unfolding(crate::specs::Paths::basic_type))]
fn basic_type(names: &TypeNames, name: &str) -> Result<Ty, RefusalKind>
    ensures { result ≡ paths.basic_type names.now name.now }
{
    if name == "Boolean" {
        return Ok(Ty::Boolean);
    }
    if name == "Integer" {
        return Ok(Ty::Integer);
    }
    if name == "String" {
        return Ok(Ty::Str);
    }
    if name == "Element" {
        return Ok(Ty::Class(names.element()));
    }
    Err(RefusalKind::UnknownType)
}

fn met_type(names: &TypeNames, name: &str, met: Met) -> Result<Ty, RefusalKind>
    ensures { result ≡ paths.met_type names.now name.now met }
{
    match met {
        Met::Nowhere => basic_type(names, name),
        Met::Once(t) => Ok(t),
        Met::Often => Err(RefusalKind::Ambiguous),
    }
}

/// The type that a name alone stands for.
#[tactic(auto, unfolding(crate::specs::Paths::one_name))]
fn one_name(metas: &Metas, names: &TypeNames, name: &str) -> Result<Ty, RefusalKind>
    ensures { result ≡ paths.one_name metas.now names.now name.now }
{
    let met = met_also(Met::Nowhere, intermediate(names, name));
    let met = met_in(metas, name, met, names.used());
    met_type(names, name, met)
}

/// The type that a model type and a name in its metamodel stand for.
#[tactic(auto, unfolding(crate::specs::Paths::two_names))]
fn two_names(
    metas: &Metas,
    names: &TypeNames,
    model_type: &str,
    name: &str,
) -> Result<Ty, RefusalKind>
    ensures { result ≡ paths.two_names metas.now names.now model_type.now name.now }
{
    match names.metamodel(model_type) {
        None => Err(RefusalKind::UnknownType),
        Some(metamodel) => known(type_in(metas, metamodel, name)),
    }
}

/// The type that a path names, or UnknownType or Ambiguous.
pub fn path_type(metas: &Metas, names: &TypeNames, path: &[Text]) -> Result<Ty, RefusalKind>
    ensures { result ≡ paths.path_type metas.now names.now path.now }
{
    match path {
        [name] => one_name(metas, names, name.as_str()),
        [model_type, name] => two_names(metas, names, model_type.as_str(), name.as_str()),
        _ => Err(RefusalKind::UnknownType),
    }
}

fn told_at(place: Place, t: Result<Ty, RefusalKind>) -> Result<Ty, TypingRefusal>
    ensures { result ≡ paths.told_at place t }
{
    match t {
        Ok(t) => Ok(t),
        Err(kind) => Err(TypingRefusal { kind, place }),
    }
}

/// Collections of the kind with such items.
fn collection(
    alloc: Global,
    kind: CollKind,
    item: Result<Ty, TypingRefusal>,
) -> Result<Result<Ty, TypingRefusal>, ListFault>
    ensures { IfOk result (λ t. t ≡ paths.collection kind item) }
{
    match item {
        Ok(item) => Ok(Ok(Ty::Coll(kind, Boxed::new(alloc, item)?))),
        Err(refusal) => Ok(Err(refusal)),
    }
}

/// The type that is written, or what is told of its path.
pub fn written_type(
    alloc: Global,
    metas: &Metas,
    names: &TypeNames,
    written: &TypeTree,
) -> Result<Result<Ty, TypingRefusal>, ListFault>
    ensures { IfOk result (λ t. t ≡ paths.written_type metas.now names.now (type_view written.now)) }
{
    match written {
        TypeTree::Coll {
            kind,
            item,
            place: _,
        } => {
            let item = written_type(alloc, metas, names, item)?;
            collection(alloc, *kind, item)
        }
        TypeTree::Path(path) => Ok(told_at(
            path.place,
            path_type(metas, names, path.names.as_slice()),
        )),
    }
}

fn class_in(t: &Ty) -> Result<ClassNo, RefusalKind>
    ensures { result ≡ paths.class_in (out-Ty t.now) }
{
    match t {
        Ty::Class(class) => Ok(*class),
        _ => Err(RefusalKind::UnknownType),
    }
}

fn class_of_type(t: Result<Ty, RefusalKind>) -> Result<ClassNo, RefusalKind>
    ensures { result ≡ paths.class_of_type t }
{
    match t {
        Ok(t) => class_in(&t),
        Err(kind) => Err(kind),
    }
}

/// The class that a path names, or UnknownType or Ambiguous.
#[tactic(auto, unfolding(crate::specs::Paths::path_class))]
pub fn path_class(metas: &Metas, names: &TypeNames, path: &[Text]) -> Result<ClassNo, RefusalKind>
    ensures { result ≡ paths.path_class metas.now names.now path.now }
{
    class_of_type(path_type(metas, names, path))
}

fn unless_ambiguous(kind: RefusalKind) -> RefusalKind
    ensures { result ≡ paths.unless_ambiguous kind }
{
    match kind {
        RefusalKind::Ambiguous => RefusalKind::Ambiguous,
        _ => RefusalKind::UnknownName,
    }
}

/// The literal of this name in an enumeration.
fn literal_in(metas: &Metas, name: &str, t: &Ty) -> Result<LiteralRef, RefusalKind>
    ensures { result ≡ paths.literal_in metas.now name.now (out-Ty t.now) }
{
    let Ty::Enum(metamodel, enumeration) = t else {
        return Err(RefusalKind::UnknownName);
    };
    match metas.literal(*metamodel, *enumeration, name) {
        None => Err(RefusalKind::UnknownName),
        Some(literal) => Ok(LiteralRef {
            metamodel: *metamodel,
            enumeration: *enumeration,
            literal,
        }),
    }
}

fn literal_of_type(
    metas: &Metas,
    name: &str,
    t: Result<Ty, RefusalKind>,
) -> Result<LiteralRef, RefusalKind>
    ensures { result ≡ paths.literal_of_type metas.now name.now t }
{
    match t {
        Ok(t) => literal_in(metas, name, &t),
        Err(kind) => Err(unless_ambiguous(kind)),
    }
}

/// The literal that a path of two or three names is, or UnknownName or Ambiguous.
pub fn path_literal(
    metas: &Metas,
    names: &TypeNames,
    path: &[Text],
) -> Result<LiteralRef, RefusalKind>
    ensures { result ≡ paths.path_literal metas.now names.now path.now }
{
    match path {
        [enumeration, name] => {
            let t = one_name(metas, names, enumeration.as_str());
            literal_of_type(metas, name.as_str(), t)
        }
        [model_type, enumeration, name] => {
            let t = two_names(metas, names, model_type.as_str(), enumeration.as_str());
            literal_of_type(metas, name.as_str(), t)
        }
        _ => Err(RefusalKind::UnknownName),
    }
}
