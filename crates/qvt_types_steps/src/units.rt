//! Steps that call a unit, once it is chosen.

ghost use Rattle.std.specs.Prelude.{◌≡◌, IfOk};
ghost use Rattle.qvt_types_steps.specs.UnitCalls as units;

use crate::calls::{collected, is_single_type, source_item};
use crate::classes::ClassPart;
use qvt_base::copied::Copied;
use qvt_base::list_fault::ListFault;
use qvt_tree_types::words::CollKind;
use qvt_types_data::boxed::Boxed;
use qvt_types_data::note::Reading;
use qvt_types_data::refusal::RefusalKind;
use qvt_types_data::ruling::{Read, Ruling};
use qvt_types_data::ty::Ty;
use qvt_types_words::metas::Metas;
use qvt_types_words::types::{conforms, innermost};
use std::alloc::Global;

fn class_in(t: &Ty) -> ClassPart
    ensures { result ≡ units.class_in t.now }
{
    match t {
        Ty::Class(class) => ClassPart::Class(*class),
        _ => ClassPart::Missing,
    }
}

/// The static class of a call behind an arrow, or else behind a dot.
pub fn static_class(arrow: bool, source: &Option<Ty>) -> ClassPart
    ensures { result ≡ units.static_class arrow source.now }
{
    let Some(t) = source else {
        return ClassPart::Untyped;
    };
    if arrow {
        class_in(source_item(t))
    } else {
        class_in(innermost(t))
    }
}

/// Whether the argument conforms to the type of its parameter, if that is known.
fn conforms_if_known(metas: &Metas, argument: &Ty, parameter: &Option<Ty>) -> bool
    ensures { result ≡ units.conforms_if_known metas.now argument.now parameter.now }
{
    match parameter {
        None => true,
        Some(parameter) => conforms(metas, argument, parameter),
    }
}

/// Whether the arguments conform to the types of the parameters, one by one.
#[tactic(auto, using(crate::proofs::NoArguments::none_left))]
fn arguments_conform(metas: &Metas, parameters: &[Option<Ty>], arguments: &[Ty]) -> bool
    ensures { result ≡ units.arguments_conform metas.now parameters.now arguments.now }
{
    for (i, argument) in arguments.iter().enumerate() {
        if i >= parameters.len() {
            return true;
        }
        if !conforms_if_known(metas, argument, &parameters[i]) {
            return false;
        }
    }
    true
}

/// What is told of the arguments of a call, by the types of the parameters of the unit, of which some may be unknown.
pub fn arguments_wrong(
    metas: &Metas,
    parameters: &[Option<Ty>],
    arguments: &[Ty],
) -> Option<RefusalKind>
    ensures { result ≡ units.arguments_wrong metas.now parameters.now arguments.now }
{
    if arguments.len() != parameters.len() {
        return Some(RefusalKind::WrongCount);
    }
    if arguments_conform(metas, parameters, arguments) {
        None
    } else {
        Some(RefusalKind::WrongType)
    }
}

/// What is ruled of a step that calls a helper or a query with this answer.
pub fn unit_step(
    alloc: Global,
    source: &Option<Ty>,
    reading: Reading,
    answer: &Option<Ty>,
) -> Result<Ruling, ListFault>
    ensures { IfOk result (λ r. r ≡ units.unit_step source.now reading answer.now) }
{
    let Some(t) = source else {
        return Ok(Ruling::Silent);
    };
    let Some(answer) = answer else {
        return Ok(Ruling::Silent);
    };
    let answer = answer.copy(alloc)?;
    collected(alloc, t, Ruling::Holds(Read::plain(reading, Some(answer))))
}

/// A Sequence of the results.
fn sequence(
    alloc: Global,
    wrap: bool,
    collect: bool,
    reading: Reading,
    item: &Ty,
) -> Result<Ruling, ListFault>
    ensures { IfOk result (λ r. r ≡ units.sequence wrap collect reading item.now) }
{
    let results = Ty::Coll(CollKind::Sequence, Boxed::new(alloc, item.copy(alloc)?)?);
    Ok(Ruling::Holds(Read {
        reading,
        source: None,
        wrap,
        collect,
        answer: Some(results),
    }))
}

/// What is ruled of a mapping over this source with this answer.
fn mapped(
    alloc: Global,
    arrow: bool,
    t: &Ty,
    reading: Reading,
    answer: &Ty,
) -> Result<Ruling, ListFault>
    ensures { IfOk result (λ r. r ≡ units.mapped arrow t.now reading answer.now) }
{
    let single = is_single_type(t);
    if arrow {
        return sequence(alloc, single, false, reading, answer);
    }
    if !single {
        return sequence(alloc, false, true, reading, answer);
    }
    let answer = answer.copy(alloc)?;
    Ok(Ruling::Holds(Read::plain(reading, Some(answer))))
}

/// What is ruled of a step that calls a mapping with this answer, behind an arrow or else behind a dot.
pub fn mapping_step(
    alloc: Global,
    arrow: bool,
    source: &Option<Ty>,
    reading: Reading,
    answer: &Option<Ty>,
) -> Result<Ruling, ListFault>
    ensures { IfOk result (λ r. r ≡ units.mapping_step arrow source.now reading answer.now) }
{
    let Some(t) = source else {
        return Ok(Ruling::Silent);
    };
    let Some(answer) = answer else {
        return Ok(Ruling::Silent);
    };
    mapped(alloc, arrow, t, reading, answer)
}
