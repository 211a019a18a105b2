//! `any`, `one`, `exists` and `forAll` (OCL 2.4, 11.9).

ghost use Rattle.std.specs.Prelude.{◌≡◌, List};
ghost use Rattle.qvt_run_data.specs.declared.late.LateWrite.{LateWrite};
ghost use Rattle.qvt_run_rules.specs.State.{Does};
ghost use Rattle.qvt_exec_loops.specs.Turns.{after_of, rest_of, without_truth, Takes};
ghost use Rattle.qvt_exec_loops.specs.declared.turns.Turns.TheVariants as turn;

use qvt_base::copied::Copied;
use qvt_base::numbers::Place;
use qvt_exec_state::steps::misfit;
use qvt_exec_words::logic::{conjunction, disjunction, is_false, is_logical, is_true};
use qvt_run_data::exit::Halt;
use qvt_value::value::{Reason, Value};
use std::alloc::Global;
use std::mem;

/// What ends an iterator that wants a Boolean, at another value.
pub fn without_truth(place: Place, given: &Value) -> Result<Option<Value>, Halt>
    ensures { result ≡ without_truth place given.now }
{
    match given {
        Value::Null => Ok(Some(Value::Invalid(Reason::NullValue, place))),
        Value::Invalid(reason, cause) => Ok(Some(Value::Invalid(*reason, *cause))),
        _ => misfit(place),
    }
}

/// A turn of `any`: the first item for which the condition is true.
#[inline(never)]
pub fn take_any(
    alloc: Global,
    place: Place,
    item: &Value,
    given: &Value,
) -> Result<Option<Value>, Halt>
    ensures { (f : Value → Does LateWrite Value) (xs : List Value) → Takes (after_of place f turn.Any item.now xs given.now) result (rest_of place f turn.Any xs) }
{
    let Value::Bool(truth) = given else {
        return without_truth(place, given);
    };
    if *truth {
        return Ok(Some(item.copy(alloc)?));
    }
    Ok(None)
}

/// A turn of `one`: the items are counted for which the condition is true.
#[inline(never)]
pub fn take_one(count: &mut usize, place: Place, given: &Value) -> Result<Option<Value>, Halt>
    ensures { (f : Value → Does LateWrite Value) (x : Value) (xs : List Value) → Takes (after_of place f (turn.One count.old) x xs given.now) result (rest_of place f (turn.One count.new) xs) }
{
    let Value::Bool(truth) = given else {
        return without_truth(place, given);
    };
    if *truth {
        let Some(more) = count.checked_add(1) else {
            return Err(Halt::NoMemory);
        };
        *count = more;
    }
    Ok(None)
}

/// A turn of `exists`: the bodies are joined by `or`. After false, false changes nothing.
#[inline(never)]
#[tactic(auto, using(crate::proofs::Stays::stays_false))]
pub fn take_exists(so_far: &mut Value, place: Place, given: Value) -> Result<Option<Value>, Halt>
    ensures { (f : Value → Does LateWrite Value) (x : Value) (xs : List Value) → Takes (after_of place f (turn.Exists so_far.old) x xs given) result (rest_of place f (turn.Exists so_far.new) xs) }
{
    if is_false(&given) && is_false(so_far) {
        return Ok(None);
    }
    if !is_logical(&given) {
        return misfit(place);
    }
    let joined = disjunction(mem::replace(so_far, Value::Null), given);
    if is_true(&joined) {
        return Ok(Some(joined));
    }
    *so_far = joined;
    Ok(None)
}

/// A turn of `forAll`: the bodies are joined by `and`. After true, true changes nothing.
#[inline(never)]
#[tactic(auto, using(crate::proofs::Stays::stays_true))]
pub fn take_for_all(so_far: &mut Value, place: Place, given: Value) -> Result<Option<Value>, Halt>
    ensures { (f : Value → Does LateWrite Value) (x : Value) (xs : List Value) → Takes (after_of place f (turn.ForAll so_far.old) x xs given) result (rest_of place f (turn.ForAll so_far.new) xs) }
{
    if is_true(&given) && is_true(so_far) {
        return Ok(None);
    }
    if !is_logical(&given) {
        return misfit(place);
    }
    let joined = conjunction(mem::replace(so_far, Value::Null), given);
    if is_false(&joined) {
        return Ok(Some(joined));
    }
    *so_far = joined;
    Ok(None)
}
