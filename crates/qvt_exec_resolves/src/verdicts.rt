//! What conditions say of candidates, and what comes of it (QVT 1.3, 8.2.1.22).

ghost use Rattle.std.specs.Prelude.{◌≡◌, ℕ, List, map, IfOk};
ghost use Rattle.qvt_base.specs.declared.numbers.Oid.{Oid};
ghost use Rattle.qvt_value.specs.declared.value.Value.{Obj};
ghost use Rattle.qvt_run_rules.specs.Resolve as rule;
ghost use Rattle.qvt_exec_state.specs.Runs.{Runs, seen};
ghost use Rattle.qvt_exec_resolves.specs.Verdicts.{answer_by, found_view, verdict_view};

use qvt_base::list_fault::ListFault;
use qvt_base::lists::OidList;
use qvt_base::numbers::{Oid, Place};
use qvt_base::seq::Seq;
use qvt_exec_state::state::RunState;
use qvt_run_data::exit::{End, Exit, Halt};
use qvt_run_data::fault::RunFault;
use qvt_value::value::{Kind, Reason, Value, Values};
use std::alloc::Global;

/// What a condition says of a candidate.
#[derive(Clone, Copy, Debug, PartialEq, Eq)]
pub enum Verdict {
    Passes,
    Fails,
    /// It is invalid, with the reason and the place of its cause.
    Invalid(Reason, Place),
    Stops(End),
}

/// The objects that a request has, or what ended its answer.
pub enum Found {
    Objects(OidList),
    /// A condition is invalid.
    Undefined(Reason, Place),
    Stopped(End),
}

impl Drop for Found {
    fn drop(self) {
        match self {
            Found::Objects(objects) => {}
            Found::Undefined(reason, place) => {}
            Found::Stopped(end) => {}
        }
    }
}

/// What comes of a candidate: the objects so far, with which the rest is looked at, or what ends the answer.
pub enum Sifted {
    GoesOn(OidList),
    Ends(Found),
}

impl Drop for Sifted {
    fn drop(self) {
        match self {
            Sifted::GoesOn(objects) => {}
            Sifted::Ends(found) => {}
        }
    }
}

/// What the value of a condition at this place says.
pub fn verdict_of(place: Place, given: &Result<Value, End>) -> Verdict
    ensures { verdict_view result ≡ rule.verdict_of place given.now }
{
    match given {
        Ok(Value::Bool(true)) => Verdict::Passes,
        Ok(Value::Bool(false)) => Verdict::Fails,
        Ok(Value::Null) => Verdict::Invalid(Reason::NullValue, place),
        Ok(Value::Invalid(reason, cause)) => Verdict::Invalid(*reason, *cause),
        Ok(_) => Verdict::Stops(End::Fault(RunFault::TypeFault, place)),
        Err(end) => Verdict::Stops(*end),
    }
}

/// What comes of a candidate with this verdict, behind the objects so far. Where one object is wanted
/// the first that passes ends the answer, whatever stands behind it.
pub fn sifted_by(
    verdict: Verdict,
    one: bool,
    done: OidList,
    object: Oid,
) -> Result<Sifted, ListFault>
    ensures { IfOk result (λ sifted. (cost : ℕ) (on : List Oid → rule.ResolveAnswer) → rule.sifted_by (verdict_view verdict) one done cost object on ≡ answer_by sifted cost on) }
{
    match verdict {
        Verdict::Fails => Ok(Sifted::GoesOn(done)),
        Verdict::Invalid(reason, place) => Ok(Sifted::Ends(Found::Undefined(reason, place))),
        Verdict::Stops(end) => Ok(Sifted::Ends(Found::Stopped(end))),
        Verdict::Passes => {
            let mut all = done;
            all.push(object)?;
            if one {
                Ok(Sifted::Ends(Found::Objects(all)))
            } else {
                Ok(Sifted::GoesOn(all))
            }
        }
    }
}

/// The first of the objects, or null.
fn first_object(objects: &[Oid]) -> Value
    ensures { result ≡ rule.first_object objects.now }
{
    match objects.first() {
        None => Value::Null,
        Some(object) => Value::Obj(*object),
    }
}

fn values_of(alloc: Global, objects: &[Oid]) -> Result<Values, ListFault>
    ensures { IfOk result (λ values. values ≡ map Obj objects.now) }
{
    let mut values = Seq::new(alloc);
    for object in objects {
        values.push(Value::Obj(*object))?;
    }
    Ok(values)
}

/// The first object or null, where one is wanted; else a Sequence.
fn objects_value(alloc: Global, one: bool, objects: &[Oid]) -> Result<Value, ListFault>
    ensures { IfOk result (λ value. value ≡ rule.objects_value one objects.now) }
{
    if one {
        return Ok(first_object(objects));
    }
    Ok(Value::Coll(Kind::Sequence, values_of(alloc, objects)?))
}

/// The value of a resolve for which this was found.
pub fn answer_value(
    alloc: Global,
    one: bool,
    found: &Found,
    state: &RunState<'_>,
) -> Result<Value, Halt>
    ensures { Runs (rule.answer_value one (found_view found.now) (seen state.now)) result state.now }
{
    match found {
        Found::Objects(objects) => Ok(objects_value(alloc, one, objects.as_slice())?),
        Found::Undefined(reason, place) => Ok(Value::Invalid(*reason, *place)),
        Found::Stopped(end) => Err(Halt::Exits(Exit::Ends(*end))),
    }
}
