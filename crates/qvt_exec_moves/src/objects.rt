//! Changes of slots, new objects, and the objects of object expressions.
//!
//! The body of an object expression runs between `let outer = mem::replace(&mut state.inner, Some(object));`
//! and `state.inner = outer;`, whatever comes of it.

ghost use Rattle.std.specs.Prelude.{◌<◌, length, true, nat_lt};
ghost use Rattle.qvt_exec_state.specs.Held.{contents_of};
ghost use Rattle.qvt_run_rules.specs.Statements.{object_or_new, set_object};
ghost use Rattle.qvt_run_rules.specs.Store.{changed, made_one, new_object, put, slot_items, written};
ghost use Rattle.qvt_store.specs.Assign.{write};
ghost use Rattle.qvt_store.specs.Types.{IsAssignable};
ghost use Rattle.qvt_store.specs.Limits.{most_objects};
ghost use Rattle.qvt_store.specs.Sound.{IsClassFor};
ghost use Rattle.qvt_exec_state.specs.Runs.{Runs, seen};
ghost use Rattle.qvt_exec_moves.specs.Moves.{taken_from, variable_object};

use crate::faults::{fault_of, faulted};
use crate::slots::{one_item, op_of, present_items};
use crate::values::taken;
use crate::variables::set_variable;
use qvt_base::copied::Copied;
use qvt_base::numbers::{ClassNo, FeatureNo, Oid, Place};
use qvt_exec_reads::fits::{are_fit, is_class_for};
use qvt_exec_state::locals::local_named;
use qvt_exec_state::state::RunState;
use qvt_exec_state::steps::misfit;
use qvt_ocl_lists::items::has_null;
use qvt_run_data::exit::Halt;
use qvt_run_data::fault::RunFault;
use qvt_store::fault::StoreFault;
use qvt_store::features::is_single;
use qvt_store::op::SetOp;
use qvt_types_data::ty::Ty;
use qvt_value::value::Value;
use std::alloc::Global;

/// A change of a slot that fits, or the fault of its refusal.
fn changed(
    object: Oid,
    feature: FeatureNo,
    op: SetOp,
    values: &[Value],
    place: Place,
    state: &mut RunState<'_>,
) -> Result<(), Halt>
    requires { IsAssignable (contents_of state.old.store) object.0 feature.0 values.now }
    ensures { Runs (changed (write (contents_of state.old.store) object.0 feature.0 op values.now) place (seen state.old)) result state.new }
{
    match state.store.write(object, feature, op, values) {
        Ok(()) => Ok(()),
        Err(StoreFault::NoMemory) => Err(Halt::NoMemory),
        Err(refusal) => faulted(fault_of(refusal), place),
    }
}

/// A slot gets this list, or its own list with this one after it, in one change.
pub fn written(
    object: Oid,
    feature: FeatureNo,
    op: SetOp,
    values: &[Value],
    place: Place,
    state: &mut RunState<'_>,
) -> Result<(), Halt>
    ensures { Runs (written object.0 feature.0 op values.now place (seen state.old)) result state.new }
{
    if are_fit(state.store.as_store(), object, feature, values) {
        changed(object, feature, op, values, place, state)
    } else {
        misfit(place)
    }
}

/// The same with what a value puts into a slot.
fn put_items(
    alloc: Global,
    object: Oid,
    feature: FeatureNo,
    op: SetOp,
    single: bool,
    value: &Value,
    place: Place,
    state: &mut RunState<'_>,
) -> Result<(), Halt>
    ensures { Runs (written object.0 feature.0 op (slot_items single value.now) place (seen state.old)) result state.new }
{
    if single {
        return written(object, feature, op, one_item(value), place, state);
    }
    match value {
        Value::Coll(_, items) => {
            if has_null(items.as_slice()) {
                let kept = present_items(alloc, items.as_slice())?;
                written(object, feature, op, kept.as_slice(), place, state)
            } else {
                written(object, feature, op, items.as_slice(), place, state)
            }
        }
        other => written(object, feature, op, one_item(other), place, state),
    }
}

/// An assignment of a value to a property, with its sign at this place; `adds` tells a `+=`. Nothing is
/// copied but the items of a collection that has nulls.
#[tactic(auto, unfolding(qvt_run_rules::specs::Store::put))]
pub fn put(
    alloc: Global,
    object: Oid,
    feature: FeatureNo,
    adds: bool,
    value: &Value,
    place: Place,
    state: &mut RunState<'_>,
) -> Result<(), Halt>
    ensures { Runs (put object.0 feature.0 adds value.now place (seen state.old)) result state.new }
{
    let single = is_single(state.store.as_store().metas(), feature);
    put_items(
        alloc,
        object,
        feature,
        op_of(adds),
        single,
        value,
        place,
        state,
    )
}

/// One more object of a class that fits, unless there are 1,000,000.
fn made_one(
    class: ClassNo,
    extent: u32,
    place: Place,
    state: &mut RunState<'_>,
) -> Result<Oid, Halt>
    requires { IsClassFor (contents_of state.old.store) class.0 extent }
    ensures { Runs (made_one true (nat_lt (length (contents_of state.old.store).objects) most_objects) class.0 extent place (seen state.old)) result state.new }
{
    match state.store.add_object(class, extent) {
        Ok(object) => Ok(object),
        Err(StoreFault::TooManyObjects) => faulted(RunFault::TooManyObjects, place),
        Err(_) => Err(Halt::NoMemory),
    }
}

/// A new object of the class.
#[tactic(auto, unfolding(qvt_run_rules::specs::Store::new_object))]
pub fn new_object(
    class: ClassNo,
    extent: u32,
    place: Place,
    state: &mut RunState<'_>,
) -> Result<Oid, Halt>
    ensures { Runs (new_object class.0 extent place (seen state.old)) result state.new }
{
    if is_class_for(state.store.as_store(), class, extent) {
        made_one(class, extent, place, state)
    } else {
        misfit(place)
    }
}

/// The variable's value is this object.
#[tactic(auto, unfolding(qvt_run_rules::specs::Statements::set_object))]
fn set_object(
    alloc: Global,
    name: &str,
    place: Place,
    object: Oid,
    state: &mut RunState<'_>,
) -> Result<Oid, Halt>
    ensures { Runs (set_object name.now place object (seen state.old)) result state.new }
{
    set_variable(alloc, name, Value::Obj(object), place, state)?;
    Ok(object)
}

/// A new object where the value of the variable is null, else the object that it is.
pub fn object_or_new(
    alloc: Global,
    name: &str,
    class: ClassNo,
    extent: u32,
    place: Place,
    value: &Value,
    state: &mut RunState<'_>,
) -> Result<Oid, Halt>
    ensures { Runs (object_or_new name.now class.0 extent place value.now (seen state.old)) result state.new }
{
    match value {
        Value::Null => {
            let object = new_object(class, extent, place, state)?;
            set_object(alloc, name, place, object, state)
        }
        Value::Obj(object) => Ok(*object),
        _ => misfit(place),
    }
}

/// The value of a variable, which a phrase takes.
#[tactic(auto, unfolding(qvt_run_rules::specs::Locals::read_local))]
fn taken_from(
    alloc: Global,
    name: &str,
    of: &Ty,
    place: Place,
    state: &RunState<'_>,
) -> Result<Value, Halt>
    ensures { Runs (taken_from name.now of.now place (seen state.now)) result state.now }
{
    match local_named(state.locals.as_slice(), name) {
        Some(local) => taken(Some(of), place, local.value.copy(alloc)?, state),
        None => misfit(place),
    }
}

/// The object of an object expression on a variable.
pub fn variable_object(
    alloc: Global,
    name: &str,
    of: &Ty,
    class: ClassNo,
    extent: u32,
    place: Place,
    state: &mut RunState<'_>,
) -> Result<Oid, Halt>
    ensures { Runs (variable_object name.now of.now class.0 extent place (seen state.old)) result state.new }
{
    let value = taken_from(alloc, name, of, place, state)?;
    object_or_new(alloc, name, class, extent, place, &value, state)
}
