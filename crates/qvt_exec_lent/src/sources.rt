//! What is lent: the value of a variable, or a list of the store, where it stands.

ghost use Rattle.std.specs.Prelude.{◌≡◌, IfOk, IfSome};
ghost use Rattle.std.specs.Option.{option_map};
ghost use Rattle.qvt_value.specs.Items.{stands_for};
ghost use Rattle.qvt_run_rules.specs.Cost.{spend_of};
ghost use Rattle.qvt_run_rules.specs.Expressions as rule;
ghost use Rattle.qvt_run_rules.specs.Locals.{read};
ghost use Rattle.qvt_run_rules.specs.Store.{property};
ghost use Rattle.qvt_exec_quiet.specs.Lent as lent;
ghost use Rattle.qvt_exec_state.specs.Runs.{Runs, seen};
ghost use Rattle.qvt_exec_lent.specs.Lends.{Lends, charged_twice};
ghost use Rattle.qvt_exec_lent.specs.Sequences.{IsSequenceOf, is_sequence};

use qvt_base::copied::Copied;
use qvt_base::list_fault::ListFault;
use qvt_base::numbers::{FeatureNo, Oid, Place};
use qvt_exec_leaves::names::property_of;
use qvt_exec_quiet::lent::Source;
use qvt_exec_reads::conditions::is_slot;
use qvt_exec_reads::property::property;
use qvt_exec_state::locals::local_named;
use qvt_exec_state::state::RunState;
use qvt_exec_state::steps::{misfit, tick};
use qvt_exec_state::store::Store;
use qvt_run_data::exit::Halt;
use qvt_store::features::is_single;
use qvt_value::items::Items;
use qvt_value::limits::MOST;
use qvt_value::value::{Kind, Value};
use std::alloc::Global;

/// Whether the variable is there. Its value is not copied.
#[tactic(auto, unfolding(qvt_run_rules::specs::Locals::read))]
fn variable_there(name: &str, place: Place, state: &RunState<'_>) -> Result<(), Halt>
    ensures { Runs (lent.there (read name.now place) (seen state.now)) result state.now }
{
    match local_named(state.locals.as_slice(), name) {
        Some(_) => Ok(()),
        None => misfit(place),
    }
}

/// Whether a value has the property.
#[tactic(auto, unfolding(qvt_run_rules::specs::Store::read_property, qvt_run_rules::specs::Store::property))]
fn property_there(
    feature: FeatureNo,
    place: Place,
    value: &Value,
    state: &RunState<'_>,
) -> Result<(), Halt>
    ensures { Runs (lent.there (rule.property_of feature.0 place value.now) (seen state.now)) result state.now }
{
    match value {
        Value::Invalid(_, _) => Ok(()),
        Value::Null => Ok(()),
        Value::Obj(object) => {
            if is_slot(state.store.as_store(), *object, feature) {
                Ok(())
            } else {
                misfit(place)
            }
        }
        _ => misfit(place),
    }
}

/// Whether what the variable holds has the property.
#[tactic(auto, unfolding(qvt_run_rules::specs::Locals::read))]
fn slot_there(
    name: &str,
    place: Place,
    feature: FeatureNo,
    dot: Place,
    state: &RunState<'_>,
) -> Result<(), Halt>
    ensures { Runs (lent.there (lent.reading_of (lent.OfSlot name.now place feature.0 dot)) (seen state.now)) result state.now }
{
    match local_named(state.locals.as_slice(), name) {
        Some(local) => property_there(feature, dot, &local.value, state),
        None => misfit(place),
    }
}

/// Whether the source can be read. Nothing is copied.
pub fn source_there(source: &Source<'_>, state: &RunState<'_>) -> Result<(), Halt>
    ensures { Runs (lent.there (lent.reading_of (lent.source_view source.now)) (seen state.now)) result state.now }
{
    match source {
        Source::Variable(name, place) => variable_there(name, *place, state),
        Source::Implicit(name, feature, place) => {
            slot_there(name, *place, *feature, *place, state)
        }
        Source::Slot(name, place, feature, dot) => slot_there(name, *place, *feature, *dot, state),
    }
}

/// The units of a property of what a variable holds, between which the variable has to be there.
fn charged_twice(
    limit: Option<u64>,
    name: &str,
    place: Place,
    state: &mut RunState<'_>,
) -> Result<(), Halt>
    ensures { Runs (charged_twice (spend_of limit) name.now place (seen state.old)) result state.new }
{
    tick(limit, state)?;
    variable_there(name, place, state)?;
    tick(limit, state)
}

/// The units of a source.
pub fn charged(
    limit: Option<u64>,
    source: &Source<'_>,
    state: &mut RunState<'_>,
) -> Result<(), Halt>
    ensures { Runs (lent.charged (spend_of limit) (lent.source_view source.now) (seen state.old)) result state.new }
{
    match source {
        Source::Variable(_, _) => tick(limit, state),
        Source::Implicit(_, _, _) => tick(limit, state),
        Source::Slot(name, place, _, _) => charged_twice(limit, name, *place, state),
    }
}

/// A value, whose items are lent where it is a collection.
fn lent_value<'v>(alloc: Global, value: &'v Value) -> Result<Items<'v>, ListFault>
    ensures { IfOk result (λ items. stands_for items ≡ value.now) }
{
    match value {
        Value::Coll(kind, items) => Ok(Items::Lent(*kind, items.as_slice())),
        _ => Ok(Items::Made(value.copy(alloc)?)),
    }
}

/// Whether a slot of the feature is a Sequence of its list.
fn is_sequence(store: &Store, feature: FeatureNo) -> bool
    ensures { result ≡ is_sequence store.now.metas feature.0 }
{
    let shape = store.metas().shape(feature);
    shape.ordered && (!shape.unique && !is_single(store.metas(), feature))
}

/// The list of a slot that is a Sequence of it, where it is there and within the limit.
fn sequence_of(store: &Store, object: Oid, feature: FeatureNo) -> Option<&[Value]>
    ensures { IfSome result (λ items. IsSequenceOf store.now object.0 feature.0 items.now) }
{
    if !is_slot(store, object, feature) {
        return None;
    }
    if !is_sequence(store, feature) {
        return None;
    }
    let items = store.slot(object, feature);
    if items.len() > MOST {
        return None;
    }
    Some(items)
}

/// A property of an object, whose items are lent where it is a Sequence.
#[tactic(auto, using(crate::proofs::Sequences::sequence_is))]
fn lent_property<'v>(
    alloc: Global,
    place: Place,
    store: &'v Store,
    object: Oid,
    feature: FeatureNo,
) -> Result<Option<Items<'v>>, ListFault>
    ensures { IfOk result (λ value. option_map stands_for value ≡ property place store.now object.0 feature.0) }
{
    if let Some(items) = sequence_of(store, object, feature) {
        return Ok(Some(Items::Lent(Kind::Sequence, items)));
    }
    match property(alloc, place, store, object, feature)? {
        Some(value) => Ok(Some(Items::Made(value))),
        None => Ok(None),
    }
}

/// A property of a value.
#[tactic(auto, unfolding(qvt_run_rules::specs::Store::read_property))]
fn lent_property_of<'v>(
    alloc: Global,
    feature: FeatureNo,
    place: Place,
    value: &Value,
    state: &'v RunState<'_>,
) -> Result<Items<'v>, Halt>
    ensures { Lends (rule.property_of feature.0 place value.now (seen state.now)) result state.now }
{
    match value {
        Value::Obj(object) => {
            let store = state.store.as_store();
            match lent_property(alloc, place, store, *object, feature)? {
                Some(items) => Ok(items),
                None => misfit(place),
            }
        }
        _ => Ok(Items::Made(property_of(alloc, feature, place, value, state)?)),
    }
}

/// What a variable holds.
#[tactic(auto, unfolding(qvt_run_rules::specs::Locals::read))]
fn lent_variable<'v>(
    alloc: Global,
    name: &str,
    place: Place,
    state: &'v RunState<'_>,
) -> Result<Items<'v>, Halt>
    ensures { Lends (read name.now place (seen state.now)) result state.now }
{
    match local_named(state.locals.as_slice(), name) {
        Some(local) => Ok(lent_value(alloc, &local.value)?),
        None => misfit(place),
    }
}

/// A property of what a variable holds.
#[tactic(auto, unfolding(qvt_run_rules::specs::Locals::read))]
fn lent_slot<'v>(
    alloc: Global,
    name: &str,
    place: Place,
    feature: FeatureNo,
    dot: Place,
    state: &'v RunState<'_>,
) -> Result<Items<'v>, Halt>
    ensures { Lends (lent.reading_of (lent.OfSlot name.now place feature.0 dot) (seen state.now)) result state.now }
{
    match local_named(state.locals.as_slice(), name) {
        Some(local) => lent_property_of(alloc, feature, dot, &local.value, state),
        None => misfit(place),
    }
}

/// What the source is. The items of a collection of a variable, and those of a slot that is a Sequence, are lent.
pub fn reading<'v>(
    alloc: Global,
    source: &Source<'_>,
    state: &'v RunState<'_>,
) -> Result<Items<'v>, Halt>
    ensures { Lends (lent.reading_of (lent.source_view source.now) (seen state.now)) result state.now }
{
    match source {
        Source::Variable(name, place) => lent_variable(alloc, name, *place, state),
        Source::Implicit(name, feature, place) => {
            lent_slot(alloc, name, *place, *feature, *place, state)
        }
        Source::Slot(name, place, feature, dot) => {
            lent_slot(alloc, name, *place, *feature, *dot, state)
        }
    }
}
