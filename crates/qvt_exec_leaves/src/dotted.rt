//! Dots on values, and on the items of collections.

ghost use Rattle.std.specs.Prelude.{◌≡◌, []};
ghost use Rattle.qvt_run_rules.specs.Cost.{count};
ghost use Rattle.qvt_run_rules.specs.Expressions as rule;
ghost use Rattle.qvt_run_rules.specs.Sources.{as_flat, collected_kind, collecting, dotted, for_items, in_turn};
ghost use Rattle.qvt_exec_state.specs.Runs.{Runs, seen};
ghost use Rattle.qvt_exec_leaves.specs.Leaves.{arguments_of, for_list, leaf_does};

use crate::names::property_of;
use qvt_base::numbers::{ClassNo, FeatureNo, Place};
use qvt_base::seq::Seq;
use qvt_exec_reads::objects::tested;
use qvt_exec_state::state::RunState;
use qvt_exec_state::steps::{found, misfit};
use qvt_exec_words::made::built_flat;
use qvt_exec_words::sources::{collected_kind, without_source};
use qvt_ocl::apply::apply;
use qvt_ocl::fault::OclFault;
use qvt_ocl_words::op::Op;
use qvt_run_data::exit::Halt;
use qvt_run_data::questions::ObjectTest;
use qvt_value::value::{Kind, Value};
use std::alloc::Global;

/// What a dot does on one value: it reads a property, applies an operation to arguments, or tests or
/// casts an object with a class.
#[derive(Clone, Copy)]
pub enum Leaf<'a> {
    Property(FeatureNo),
    Operation(Op, &'a [Value]),
    Test(ObjectTest, ClassNo),
}

fn arguments_of<'a>(leaf: &Leaf<'a>) -> &'a [Value]
    ensures { result.now ≡ arguments_of leaf.now }
{
    match leaf {
        Leaf::Property(_) => &[],
        Leaf::Operation(_, args) => args,
        Leaf::Test(_, _) => &[],
    }
}

/// What an operation gives of a source that is lent.
fn applied(
    alloc: Global,
    op: Op,
    args: &[Value],
    place: Place,
    source: &Value,
    state: &RunState<'_>,
) -> Result<Value, Halt>
    ensures { Runs (rule.applied count op args.now place source.now (seen state.now)) result state.now }
{
    match apply(alloc, op, place, source, args) {
        Ok(value) => Ok(value),
        Err(OclFault::TypeFault) => misfit(place),
        Err(OclFault::NoMemory) => Err(Halt::NoMemory),
    }
}

fn on_one(
    alloc: Global,
    leaf: &Leaf<'_>,
    place: Place,
    value: &Value,
    state: &RunState<'_>,
) -> Result<Value, Halt>
    ensures { Runs (leaf_does leaf.now place value.now (seen state.now)) result state.now }
{
    match leaf {
        Leaf::Property(feature) => property_of(alloc, *feature, place, value, state),
        Leaf::Operation(op, args) => applied(alloc, *op, args, place, value, state),
        Leaf::Test(test, class) => {
            found(
                tested(state.store.as_store(), *test, *class, place, value),
                place,
                state,
            )
        }
    }
}

/// What the dot gives of the items of a collection, in their order, flattened.
#[cycle(dots)]
fn on_list(
    alloc: Global,
    leaf: &Leaf<'_>,
    place: Place,
    kind: Kind,
    items: &[Value],
    state: &RunState<'_>,
) -> Result<Value, Halt>
    ensures { Runs (in_turn (as_flat place (collected_kind kind)) [] (for_list place (leaf_does leaf.now place) items.now) (seen state.now)) result state.now }
{
    let mut done = Seq::new(alloc);
    for item in items {
        let value = on_items(alloc, leaf, place, item, state)?;
        if let Value::Invalid(reason, cause) = &value {
            return Ok(Value::Invalid(*reason, *cause));
        }
        done.push(value)?;
    }
    Ok(built_flat(alloc, place, collected_kind(kind), done.as_slice())?)
}

/// What the dot gives of a value, or of the items of a collection.
#[cycle(dots)]
fn on_items(
    alloc: Global,
    leaf: &Leaf<'_>,
    place: Place,
    value: &Value,
    state: &RunState<'_>,
) -> Result<Value, Halt>
    ensures { Runs (for_items place (leaf_does leaf.now place) value.now (seen state.now)) result state.now }
{
    match value {
        Value::Coll(kind, items) => on_list(alloc, leaf, place, *kind, items.as_slice(), state),
        other => on_one(alloc, leaf, place, other, state),
    }
}

/// A dot over a collection.
fn collecting(
    alloc: Global,
    leaf: &Leaf<'_>,
    place: Place,
    value: &Value,
    state: &RunState<'_>,
) -> Result<Value, Halt>
    ensures { Runs (collecting place (arguments_of leaf.now) (leaf_does leaf.now place) value.now (seen state.now)) result state.now }
{
    match value {
        Value::Null => Ok(without_source(alloc, place, arguments_of(leaf))?),
        Value::Invalid(reason, cause) => Ok(Value::Invalid(*reason, *cause)),
        Value::Coll(_, _) => on_items(alloc, leaf, place, value, state),
        _ => misfit(place),
    }
}

/// A dot, with or without the implicit collect.
pub fn dotted(
    alloc: Global,
    collect: bool,
    leaf: &Leaf<'_>,
    place: Place,
    value: &Value,
    state: &RunState<'_>,
) -> Result<Value, Halt>
    ensures { Runs (dotted collect place (arguments_of leaf.now) (leaf_does leaf.now place) value.now (seen state.now)) result state.now }
{
    if collect {
        collecting(alloc, leaf, place, value, state)
    } else {
        on_one(alloc, leaf, place, value, state)
    }
}
