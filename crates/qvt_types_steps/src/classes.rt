//! Steps whose argument is a class.

ghost use Rattle.std.specs.Prelude.{◌≡◌, IfOk};
ghost use Rattle.std.specs.List.{list_any};
ghost use Rattle.qvt_types_steps.specs.Calls.{source_of};
ghost use Rattle.qvt_types_steps.specs.Classes as classes;

use crate::arrows::is_object;
use crate::calls::{collected, is_single_type, operation_read, source_item, source_kind};
use qvt_base::list_fault::ListFault;
use qvt_base::numbers::ClassNo;
use qvt_base::seq::Seq;
use qvt_base::text::Text;
use qvt_tree_types::words::CollKind;
use qvt_types_data::boxed::Boxed;
use qvt_types_data::refusal::RefusalKind;
use qvt_types_data::ruling::Ruling;
use qvt_types_data::ty::Ty;
use qvt_types_words::types::innermost;
use std::alloc::Global;

/// A part of a step that is to be a class.
#[derive(Clone, Copy, Debug, PartialEq, Eq)]
pub enum ClassPart {
    Class(ClassNo),
    /// A path that names no class, which is refused where it stands.
    Untyped,
    /// No path at all, or no class where one may be missing.
    Missing,
}

/// The tests and casts of objects (OCL 2.4, 11.3.3).
#[derive(Clone, Copy, Debug, PartialEq, Eq)]
pub enum ClassTest {
    IsKindOf,
    IsTypeOf,
    AsType,
}

/// The operations of models (QVT 1.3, 8.3.4).
#[derive(Clone, Copy, Debug, PartialEq, Eq)]
pub enum ModelCall {
    Objects,
    RootObjects,
    ObjectsOfType,
}

/// Whether it is a path that names no class.
pub fn is_untyped(part: ClassPart) -> bool
    ensures { result ≡ classes.is_untyped part }
{
    match part {
        ClassPart::Untyped => true,
        _ => false,
    }
}

fn any_untyped(parts: &[ClassPart]) -> bool
    ensures { result ≡ list_any classes.is_untyped parts.now }
{
    parts.iter().any(|part| is_untyped(*part))
}

/// The test or cast of this name, None where there is none.
#[tactic(auto, unfolding(crate::specs::Classes::class_test_named))]
pub fn class_test_named(name: &str) -> Option<ClassTest>
    ensures { result ≡ classes.class_test_named name.now }
{
    if name == "oclIsKindOf" {
        return Some(ClassTest::IsKindOf);
    }
    if name == "oclIsTypeOf" {
        return Some(ClassTest::IsTypeOf);
    }
    if name == "oclAsType" {
        return Some(ClassTest::AsType);
    }
    None
}

/// The type of a test or cast.
fn test_type(test: ClassTest, class: ClassNo) -> Ty
    ensures { result ≡ classes.test_type test class }
{
    match test {
        ClassTest::IsKindOf => Ty::Boolean,
        ClassTest::IsTypeOf => Ty::Boolean,
        ClassTest::AsType => Ty::Class(class),
    }
}

/// What is ruled of a test or cast of an object by this class.
fn test_by(
    alloc: Global,
    name: &Text,
    test: ClassTest,
    part: ClassPart,
) -> Result<Ruling, ListFault>
    ensures { IfOk result (λ r. r ≡ classes.class_answer name.now (classes.test_type test) part) }
{
    match part {
        ClassPart::Class(class) => operation_read(alloc, name, test_type(test, class)),
        ClassPart::Missing => Ok(Ruling::Fails(RefusalKind::WrongType)),
        ClassPart::Untyped => Ok(Ruling::Silent),
    }
}

/// What is ruled of a test or cast of an object.
fn tested_object(
    alloc: Global,
    name: &Text,
    test: ClassTest,
    parts: &[ClassPart],
) -> Result<Ruling, ListFault>
    ensures { IfOk result (λ r. r ≡ classes.with_class name.now (classes.test_type test) parts.now) }
{
    match parts {
        [part] => test_by(alloc, name, test, *part),
        _ => Ok(Ruling::Fails(RefusalKind::WrongCount)),
    }
}

/// What is ruled of a test or cast of a value that is no collection.
fn tested(
    alloc: Global,
    name: &Text,
    test: ClassTest,
    t: &Ty,
    parts: &[ClassPart],
) -> Result<Ruling, ListFault>
    ensures { IfOk result (λ r. r ≡ classes.tested name.now test t.now parts.now) }
{
    match t {
        Ty::Class(_) => tested_object(alloc, name, test, parts),
        _ => Ok(Ruling::Fails(RefusalKind::UnknownName)),
    }
}

/// What is ruled of a test or cast behind a dot.
pub fn class_test(
    alloc: Global,
    name: &Text,
    test: ClassTest,
    source: &Option<Ty>,
    parts: &[ClassPart],
) -> Result<Ruling, ListFault>
    ensures { IfOk result (λ r. r ≡ classes.class_test name.now test source.now parts.now) }
{
    let Some(t) = source else {
        return Ok(Ruling::Silent);
    };
    if any_untyped(parts) {
        return Ok(Ruling::Silent);
    }
    let ruling = tested(alloc, name, test, innermost(t), parts)?;
    collected(alloc, t, ruling)
}

/// Whether the name is selectByKind or selectByType.
pub fn is_selection(name: &str) -> bool
    ensures { result ≡ classes.is_selection name.now }
{
    if name == "selectByKind" {
        return true;
    }
    name == "selectByType"
}

/// The collection of the kind with objects of the class.
fn objects_in(alloc: Global, kind: CollKind, class: ClassNo) -> Result<Ty, ListFault>
    ensures { IfOk result (λ t. t ≡ classes.objects_in kind class) }
{
    Ok(Ty::Coll(kind, Boxed::new(alloc, Ty::Class(class))?))
}

/// What is ruled of a step that answers a collection of the kind with objects of this class.
fn objects_by(
    alloc: Global,
    name: &Text,
    kind: CollKind,
    part: ClassPart,
) -> Result<Ruling, ListFault>
    ensures { IfOk result (λ r. r ≡ classes.class_answer name.now (classes.objects_in kind) part) }
{
    match part {
        ClassPart::Class(class) => operation_read(alloc, name, objects_in(alloc, kind, class)?),
        ClassPart::Missing => Ok(Ruling::Fails(RefusalKind::WrongType)),
        ClassPart::Untyped => Ok(Ruling::Silent),
    }
}

/// What is ruled of a selection over this source.
fn selected(
    alloc: Global,
    name: &Text,
    source: &Ty,
    parts: &[ClassPart],
) -> Result<Ruling, ListFault>
    ensures { IfOk result (λ r. r ≡ classes.selected name.now (source_of source.now) parts.now) }
{
    match parts {
        [part] => {
            if is_object(source_item(source)) {
                objects_by(alloc, name, source_kind(source), *part)
            } else {
                Ok(Ruling::Fails(RefusalKind::WrongType))
            }
        }
        _ => Ok(Ruling::Fails(RefusalKind::WrongCount)),
    }
}

/// What is ruled of a selection, which takes no Head.
pub fn selection(
    alloc: Global,
    name: &Text,
    has_head: bool,
    source: &Option<Ty>,
    parts: &[ClassPart],
) -> Result<Ruling, ListFault>
    ensures { IfOk result (λ r. r ≡ classes.selection name.now has_head source.now parts.now) }
{
    let Some(t) = source else {
        return Ok(Ruling::Silent);
    };
    if any_untyped(parts) {
        return Ok(Ruling::Silent);
    }
    if has_head {
        return Ok(Ruling::Fails(RefusalKind::WrongCount));
    }
    let ruling = selected(alloc, name, t, parts)?;
    Ok(ruling.wrapped(is_single_type(t)))
}

/// The operation of models of this name, None where there is none.
#[tactic(auto, unfolding(crate::specs::Classes::model_call_named))]
pub fn model_call_named(name: &str) -> Option<ModelCall>
    ensures { result ≡ classes.model_call_named name.now }
{
    if name == "objects" {
        return Some(ModelCall::Objects);
    }
    if name == "rootObjects" {
        return Some(ModelCall::RootObjects);
    }
    if name == "objectsOfType" {
        return Some(ModelCall::ObjectsOfType);
    }
    None
}

/// What is ruled of objects and rootObjects of a model. Element is the class above all classes.
pub fn model_objects(
    alloc: Global,
    name: &Text,
    element: ClassNo,
    args: &Option<Seq<Ty>>,
) -> Result<Ruling, ListFault>
    ensures { IfOk result (λ r. r ≡ classes.model_objects name.now element args.now) }
{
    let Some(args) = args else {
        return Ok(Ruling::Silent);
    };
    match args.as_slice() {
        [] => operation_read(
            alloc,
            name,
            objects_in(alloc, CollKind::OrderedSet, element)?,
        ),
        _ => Ok(Ruling::Fails(RefusalKind::WrongCount)),
    }
}

/// What is ruled of objectsOfType of a model.
pub fn model_objects_of(
    alloc: Global,
    name: &Text,
    parts: &[ClassPart],
) -> Result<Ruling, ListFault>
    ensures { IfOk result (λ r. r ≡ classes.model_objects_of name.now parts.now) }
{
    if any_untyped(parts) {
        return Ok(Ruling::Silent);
    }
    match parts {
        [part] => objects_by(alloc, name, CollKind::OrderedSet, *part),
        _ => Ok(Ruling::Fails(RefusalKind::WrongCount)),
    }
}
