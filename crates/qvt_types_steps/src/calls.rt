//! Steps that call an operation.

ghost use Rattle.std.specs.Prelude.{◌≡◌, IfOk, Some, None};
ghost use Rattle.qvt_types_words.specs.Answers.{answer as answer_of};
ghost use Rattle.qvt_types_data.specs.declared.ty.Ty.TheVariants as ty;
ghost use Rattle.qvt_types_words.specs.Types.{innermost as innermost_of, collected_kind as collected_kind_of};
ghost use Rattle.qvt_types_steps.specs.Calls as calls;

use qvt_base::copied::Copied;
use qvt_base::list_fault::ListFault;
use qvt_base::seq::Seq;
use qvt_base::text::Text;
use qvt_tree_types::words::CollKind;
use qvt_types_data::boxed::Boxed;
use qvt_types_data::note::Reading;
use qvt_types_data::refusal::RefusalKind;
use qvt_types_data::ruling::{Read, Ruling};
use qvt_types_data::ty::Ty;
use qvt_types_words::answers::{answer, arity};
use qvt_types_words::metas::Metas;
use qvt_types_words::op::Op;
use qvt_types_words::operation_names::operation_named;
use qvt_types_words::types::{collected_kind, innermost};
use std::alloc::Global;

/// The collection of the kind, with the innermost items of the type.
pub fn flattened(alloc: Global, kind: CollKind, t: &Ty) -> Result<Ty, ListFault>
    ensures { IfOk result (λ r. r ≡ ty.Coll (collected_kind_of kind) (innermost_of t.now)) }
{
    let item = innermost(t).copy(alloc)?;
    Ok(Ty::Coll(collected_kind(kind), Boxed::new(alloc, item)?))
}

/// The type of all answers of a step that is applied to each item of a collection of the kind.
fn all_answers(alloc: Global, kind: CollKind, ruling: &Ruling) -> Result<Option<Ty>, ListFault>
    ensures { IfOk result (λ o. o ≡ calls.all_answers kind ruling.now) }
{
    let Ruling::Holds(read) = ruling else {
        return Ok(None);
    };
    match &read.answer {
        None => Ok(None),
        Some(t) => Ok(Some(flattened(alloc, kind, t)?)),
    }
}

/// What is ruled of a dot on this type, by what is ruled of it on the innermost items.
pub fn collected(alloc: Global, t: &Ty, ruling: Ruling) -> Result<Ruling, ListFault>
    ensures { IfOk result (λ r. r ≡ calls.collected t.now ruling) }
{
    let Ty::Coll(kind, _) = t else {
        return Ok(ruling);
    };
    let all = all_answers(alloc, *kind, &ruling)?;
    Ok(ruling.for_each_item(all))
}

/// Whether the type is no collection.
pub fn is_single_type(t: &Ty) -> bool
    ensures { result ≡ calls.is_single_type t.now }
{
    match t {
        Ty::Coll(_, _) => false,
        _ => true,
    }
}

/// The kind of what an arrow goes over.
pub fn source_kind(t: &Ty) -> CollKind
    ensures { result ≡ (calls.source_of t.now).kind }
{
    match t {
        Ty::Coll(kind, _) => *kind,
        _ => CollKind::Set,
    }
}

/// The type of the items of what an arrow goes over.
pub fn source_item(t: &Ty) -> &Ty
    ensures { result.now ≡ (calls.source_of t.now).item }
{
    match t {
        Ty::Coll(_, item) => item.get(),
        other => other,
    }
}

/// The operation of this name with its type.
pub fn operation_read(alloc: Global, name: &Text, t: Ty) -> Result<Ruling, ListFault>
    ensures { IfOk result (λ r. r ≡ calls.operation_read name.now (Some t)) }
{
    let reading = Reading::Operation(name.copy(alloc)?);
    Ok(Ruling::Holds(Read::plain(reading, Some(t))))
}

/// What is ruled of the operation at a source that has it, and with as many arguments as it takes.
fn answered(
    alloc: Global,
    metas: &Metas,
    name: &Text,
    op: Op,
    t: &Ty,
    args: &[Ty],
) -> Result<Ruling, ListFault>
    ensures { IfOk result (λ r. r ≡ calls.operation_read name.now (answer_of metas.now op t.now args.now)) }
{
    match answer(alloc, metas, op, t, args)? {
        None => Ok(Ruling::Fails(RefusalKind::WrongType)),
        Some(answer) => operation_read(alloc, name, answer),
    }
}

/// What is ruled of the operation of this name at a source of this type.
pub fn call(
    alloc: Global,
    metas: &Metas,
    name: &Text,
    t: &Ty,
    args: &[Ty],
) -> Result<Ruling, ListFault>
    ensures { IfOk result (λ r. r ≡ calls.call metas.now name.now t.now args.now) }
{
    let Some(op) = operation_named(name.as_str()) else {
        return Ok(Ruling::Fails(RefusalKind::UnknownName));
    };
    let Some(count) = arity(op, t) else {
        return Ok(Ruling::Fails(RefusalKind::UnknownName));
    };
    if args.len() != count {
        return Ok(Ruling::Fails(RefusalKind::WrongCount));
    }
    answered(alloc, metas, name, op, t, args)
}

/// What is ruled of a call behind a dot.
pub fn dot_call(
    alloc: Global,
    metas: &Metas,
    name: &Text,
    source: &Option<Ty>,
    args: &Option<Seq<Ty>>,
) -> Result<Ruling, ListFault>
    ensures { IfOk result (λ r. r ≡ calls.dot_call metas.now name.now source.now args.now) }
{
    let Some(t) = source else {
        return Ok(Ruling::Silent);
    };
    let Some(args) = args else {
        return Ok(Ruling::Silent);
    };
    let ruling = call(alloc, metas, name, innermost(t), args.as_slice())?;
    collected(alloc, t, ruling)
}

/// How many arguments the operation of this name takes, None where the source has none of this name.
pub fn named_arity(name: &str, t: &Ty) -> Option<usize>
    ensures { result ≡ calls.named_arity name.now t.now }
{
    match operation_named(name) {
        None => None,
        Some(op) => arity(op, t),
    }
}

/// Whether the name is that of an operation behind a dot on this type. Where it is not, the step calls a unit.
pub fn has_operation(name: &str, t: &Ty) -> bool
    ensures { result ≡ calls.has_operation name.now t.now }
{
    named_arity(name, innermost(t)).is_some()
}
