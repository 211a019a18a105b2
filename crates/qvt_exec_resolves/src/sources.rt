//! The objects that a resolve looks from (QVT 1.3, 8.1.10).

ghost use Rattle.std.specs.Prelude.{◌≡◌, ◌∷◌, [], IfOk};
ghost use Rattle.std.specs.List.{list_all};
ghost use Rattle.qvt_store.specs.Contents.{is_live};
ghost use Rattle.qvt_run_rules.specs.Resolve as rule;
ghost use Rattle.qvt_run_rules.specs.Sources.{all_objects, present_items, sources_in};
ghost use Rattle.qvt_exec_state.specs.Runs.{Runs, seen};
ghost use Rattle.qvt_exec_resolves.specs.Sources.{objects_with};

use qvt_base::list_fault::ListFault;
use qvt_base::lists::OidList;
use qvt_base::numbers::{Oid, Place};
use qvt_base::seq::Seq;
use qvt_exec_state::state::RunState;
use qvt_exec_state::steps::misfit;
use qvt_exec_state::store::Store;
use qvt_run_data::exit::{End, Exit, Halt};
use qvt_run_data::fault::RunFault;
use qvt_value::value::Value;
use std::alloc::Global;

/// The objects of these items, one item after another.
fn found_in(alloc: Global, items: &[Value]) -> Result<Option<OidList>, ListFault>
    ensures { IfOk result (λ objects. objects ≡ objects_with [] items.now) }
{
    let mut objects = Seq::new(alloc);
    for item in items {
        match item {
            Value::Null => {}
            Value::Obj(object) => objects.push(*object)?,
            _ => return Ok(None),
        }
    }
    Ok(Some(objects))
}

/// The objects among these items, None where one is neither an object nor null.
fn objects_of(alloc: Global, items: &[Value]) -> Result<Option<OidList>, ListFault>
    ensures { IfOk result (λ objects. objects ≡ all_objects (present_items items.now)) }
{
    let objects = found_in(alloc, items)?;
    Ok(objects)
}

/// The list of the one object.
fn alone(alloc: Global, object: Oid) -> Result<OidList, ListFault>
    ensures { IfOk result (λ objects. objects ≡ object ∷ []) }
{
    let mut objects = Seq::new(alloc);
    objects.push(object)?;
    Ok(objects)
}

/// The objects that the value is or has, None where it has what is neither an object nor null.
#[tactic(auto, unfolding(qvt_run_rules::specs::Sources::sources_in))]
pub fn sources_in(alloc: Global, value: &Value) -> Result<Option<OidList>, ListFault>
    ensures { IfOk result (λ objects. objects ≡ sources_in value.now) }
{
    match value {
        Value::Null => Ok(Some(Seq::new(alloc))),
        Value::Obj(object) => Ok(Some(alone(alloc, *object)?)),
        Value::Coll(_, items) => objects_of(alloc, items.as_slice()),
        _ => Ok(None),
    }
}

/// Whether all of the objects are there.
fn are_live(store: &Store, objects: &[Oid]) -> bool
    ensures { result ≡ list_all (λ o. is_live store.now o.0) objects.now }
{
    objects.iter().all(|object| object.0 < store.len())
}

/// The objects, if all of them are there.
fn if_live(store: &Store, objects: OidList) -> Option<OidList>
    ensures { result ≡ rule.if_live store.now objects }
{
    if are_live(store, objects.as_slice()) {
        Some(objects)
    } else {
        None
    }
}

/// The same where there may be none.
fn all_live(store: &Store, objects: Option<OidList>) -> Option<OidList>
    ensures { result ≡ rule.all_live store.now objects }
{
    match objects {
        None => None,
        Some(objects) => if_live(store, objects),
    }
}

/// The sources of a resolve behind this value, all of which are there: none where nothing stands before
/// it.
pub fn sources_of(
    alloc: Global,
    place: Place,
    value: &Option<Value>,
    state: &RunState<'_>,
) -> Result<Option<OidList>, Halt>
    ensures { Runs (rule.sources_of place value.now (seen state.now)) result state.now }
{
    let Some(value) = value else {
        return Ok(None);
    };
    let objects = sources_in(alloc, value)?;
    match all_live(state.store.as_store(), objects) {
        Some(sources) => Ok(Some(sources)),
        None => misfit(place),
    }
}

/// What stands before a late resolve is not invalid.
pub fn valid_source(value: Option<Value>, state: &RunState<'_>) -> Result<Option<Value>, Halt>
    ensures { Runs (rule.valid_source value (seen state.now)) result state.now }
{
    if let Some(Value::Invalid(reason, place)) = &value {
        let fault = RunFault::InvalidValue(*reason);
        return Err(Halt::Exits(Exit::Ends(End::Fault(fault, *place))));
    }
    Ok(value)
}
