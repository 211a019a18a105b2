//! `apply`: what an operation gives of its source and its arguments.

ghost use Rattle.std.specs.Prelude.{◌≡◌, All, Err, IfOk, MatchResult};
ghost use Rattle.std.specs.Option.{option_map};
ghost use Rattle.qvt_value.specs.Items.{stands_for};
ghost use Rattle.qvt_value.specs.Limits.{limited};
ghost use Rattle.qvt_ocl_words.specs.Operation.{tested, compared, unless_null, on_valid, answered, operation};
ghost use Rattle.qvt_ocl_made.specs.AsMade.{IsAsMade};
ghost use Rattle.qvt_ocl.specs.Applied.{IsApplied};
ghost use Rattle.qvt_ocl.specs.declared.fault.OclFault.TheVariants.{NoMemory};

use crate::as_made::{on_lent, on_list};
use crate::dispatch::on_present;
use crate::fault::OclFault;
use crate::lent::on_items;
use crate::operands::{first_invalid, is_equality, is_invalid, is_test, lacks_operand};
use crate::owned::on_owned;
use qvt_base::copied::Copied;
use qvt_base::list_fault::ListFault;
use qvt_base::numbers::Place;
use qvt_ocl_lists::items::{is_null, same};
use qvt_ocl_words::op::Op;
use qvt_value::items::Items;
use qvt_value::limits::limited;
use qvt_value::value::{Reason, Value};
use std::alloc::Global;

#[tactic(auto, unfolding(qvt_ocl_words::specs::Operation::unless_null))]
fn unless_null(
    alloc: Global,
    op: Op,
    place: Place,
    source: &Value,
    args: &[Value],
) -> Result<Option<Value>, ListFault>
    ensures { IfOk result (λ answer. answer ≡ unless_null op place source.now args.now) }
{
    if lacks_operand(op, source, args) {
        return Ok(Some(Value::Invalid(Reason::NullSource, place)));
    }
    on_present(alloc, op, place, source, args)
}

/// What the tests say.
#[tactic(auto, unfolding(qvt_ocl_words::specs::Operation::tested))]
fn tested(op: Op, source: &Value, args: &[Value]) -> Option<Value>
    ensures { result ≡ tested op source.now args.now }
{
    match op {
        Op::IsUndefined => match args {
            [] => Some(Value::Bool(is_null(source) || is_invalid(source))),
            _ => None,
        },
        Op::IsInvalid => match args {
            [] => Some(Value::Bool(is_invalid(source))),
            _ => None,
        },
        _ => None,
    }
}

/// What the comparison says.
#[tactic(auto, unfolding(qvt_ocl_words::specs::Operation::compared))]
fn compared(op: Op, source: &Value, args: &[Value]) -> Option<Value>
    ensures { result ≡ compared op source.now args.now }
{
    match op {
        Op::Equal => match args {
            [other] => Some(Value::Bool(same(source, other))),
            _ => None,
        },
        Op::NotEqual => match args {
            [other] => Some(Value::Bool(!same(source, other))),
            _ => None,
        },
        _ => None,
    }
}

#[tactic(auto, unfolding(qvt_ocl_words::specs::Operation::on_valid))]
fn on_valid(
    alloc: Global,
    op: Op,
    place: Place,
    source: &Value,
    args: &[Value],
) -> Result<Option<Value>, ListFault>
    ensures { IfOk result (λ answer. answer ≡ on_valid op place source.now args.now) }
{
    if is_equality(op) {
        return Ok(compared(op, source, args));
    }
    unless_null(alloc, op, place, source, args)
}

#[tactic(auto, unfolding(qvt_ocl_words::specs::Operation::answered))]
fn answered(
    alloc: Global,
    op: Op,
    place: Place,
    source: &Value,
    args: &[Value],
) -> Result<Option<Value>, ListFault>
    ensures { IfOk result (λ answer. answer ≡ answered op place source.now args.now) }
{
    if is_test(op) {
        return Ok(tested(op, source, args));
    }
    match first_invalid(source, args) {
        Some(invalid) => Ok(Some(invalid.copy(alloc)?)),
        None => on_valid(alloc, op, place, source, args),
    }
}

/// The answer as it is told: within the limits, or TypeFault where there is none.
#[tactic(auto, unfolding(qvt_ocl_words::specs::Operation::operation))]
fn told(place: Place, answer: Result<Option<Value>, ListFault>) -> Result<Value, OclFault>
    ensures { MatchResult answer (λ o. IsApplied (option_map (limited place) o) result) (λ _. result ≡ Err NoMemory) }
{
    match answer {
        Ok(Some(answer)) => Ok(limited(place, answer)),
        Ok(None) => Err(OclFault::TypeFault),
        Err(_) => Err(OclFault::NoMemory),
    }
}

/// What the operation gives of these operands. TypeFault comes exactly where it says nothing of them. The operands are lent:
/// copied are the items alone that the answer is made of.
#[tactic(auto, unfolding(qvt_ocl_words::specs::Operation::operation))]
pub fn apply(
    alloc: Global,
    op: Op,
    place: Place,
    source: &Value,
    args: &[Value],
) -> Result<Value, OclFault>
    ensures { IsApplied (operation op place source.now args.now) result }
{
    told(place, answered(alloc, op, place, source, args))
}

/// `apply` where the items of the source are lent from where they stand.
#[tactic(auto, unfolding(qvt_ocl_words::specs::Operation::operation))]
pub fn apply_lent(
    alloc: Global,
    op: Op,
    place: Place,
    source: &Items<'_>,
    args: &[Value],
) -> Result<Value, OclFault>
    ensures { IsApplied (operation op place (stands_for source.now) args.now) result }
{
    match source {
        Items::Lent(kind, items) => told(place, on_items(alloc, op, place, *kind, items, args)),
        Items::Made(value) => apply(alloc, op, place, value, args),
    }
}

/// `apply` where the source is handed over. A collection that is built on the source's list takes that list: `including` and
/// `append` put one item at its end.
#[tactic(auto, unfolding(qvt_ocl_words::specs::Operation::operation))]
pub fn apply_owned(
    alloc: Global,
    op: Op,
    place: Place,
    source: Value,
    args: &[Value],
) -> Result<Value, OclFault>
    ensures { IsApplied (operation op place source args.now) result }
{
    match source.into_items() {
        Ok((kind, items)) => told(place, on_owned(alloc, op, place, kind, items, args)),
        Err(other) => apply(alloc, op, place, &other, args),
    }
}

#[tactic(auto, using(crate::proofs::Answered::list_of, crate::proofs::Answered::list_in), unfolding(qvt_ocl_words::specs::Operation::operation))]
fn told_of_value(
    alloc: Global,
    op: Op,
    place: Place,
    source: &Value,
    args: &[Value],
) -> Result<Value, OclFault>
    requires { IsAsMade source.now }
    ensures { IsApplied (operation op place source.now args.now) result }
{
    match source {
        Value::Coll(kind, items) => told(
            place,
            on_lent(alloc, op, place, *kind, items.as_slice(), args),
        ),
        _ => apply(alloc, op, place, source, args),
    }
}

#[tactic(auto, using(crate::proofs::Answered::list_of, crate::proofs::Answered::list_in), unfolding(qvt_ocl_words::specs::Operation::operation))]
fn told_of_items(
    alloc: Global,
    op: Op,
    place: Place,
    source: &Items<'_>,
    args: &[Value],
) -> Result<Value, OclFault>
    requires { IsAsMade (stands_for source.now) }
    ensures { IsApplied (operation op place (stands_for source.now) args.now) result }
{
    match source {
        Items::Lent(kind, items) => told(place, on_lent(alloc, op, place, *kind, items, args)),
        Items::Made(value) => told_of_value(alloc, op, place, value, args),
    }
}

#[tactic(auto, unfolding(qvt_ocl_words::specs::Operation::operation))]
fn told_of_owned(
    alloc: Global,
    op: Op,
    place: Place,
    source: Value,
    args: &[Value],
) -> Result<Value, OclFault>
    requires { IsAsMade source }
    ensures { IsApplied (operation op place source args.now) result }
{
    match source.into_items() {
        Ok((kind, items)) => told(place, on_list(alloc, op, place, kind, items, args)),
        Err(other) => apply(alloc, op, place, &other, args),
    }
}

/// `apply` where the source is as made, and its items are lent. `including` and `append` put one item where it belongs in a copy of
/// its list, and sort nothing. Of arguments as made the answer is as made.
#[tactic(auto, using(crate::proofs::Answered::answer_of))]
pub fn apply_made_lent(
    alloc: Global,
    op: Op,
    place: Place,
    source: &Items<'_>,
    args: &[Value],
) -> Result<Value, OclFault>
    requires { IsAsMade (stands_for source.now) }
    ensures is { IsApplied (operation op place (stands_for source.now) args.now) result }
    ensures made { All IsAsMade args.now → IfOk result (λ answer. IsAsMade answer) }
{
    let answer = told_of_items(alloc, op, place, source, args);
    answer
}

/// `apply` where the source is as made, and is handed over. `including` and `append` put one item where it belongs in its list, and
/// sort nothing. Of arguments as made the answer is as made.
#[tactic(auto, using(crate::proofs::Answered::answer_of))]
pub fn apply_made_owned(
    alloc: Global,
    op: Op,
    place: Place,
    source: Value,
    args: &[Value],
) -> Result<Value, OclFault>
    requires { IsAsMade source }
    ensures is { IsApplied (operation op place source args.now) result }
    ensures made { All IsAsMade args.now → IfOk result (λ answer. IsAsMade answer) }
{
    let answer = told_of_owned(alloc, op, place, source, args);
    answer
}
