//! Steps behind a first part that evaluate no phrase, and operations of models.

ghost use Rattle.std.specs.Prelude.{◌≡◌, Some, map};
ghost use Rattle.qvt_types_nodes.specs.View.{typed_step_view, typed_steps_of};
ghost use Rattle.qvt_run_rules.specs.Cost.{spend_of};
ghost use Rattle.qvt_run_rules.specs.Expressions as rule;
ghost use Rattle.qvt_meaning.specs.Readings as by;
ghost use Rattle.qvt_exec_state.specs.Runs.{Runs, seen};
ghost use Rattle.qvt_exec_leaves.specs.Leaves.{without_items};

use crate::dotted::{Leaf, dotted};
use crate::nodes::class_argument;
use qvt_base::numbers::{ClassNo, Place};
use qvt_base::text::Text;
use qvt_exec_reads::models::model_value;
use qvt_exec_reads::objects::selected;
use qvt_exec_state::state::RunState;
use qvt_exec_state::steps::{found, misfit, tick};
use qvt_exec_words::readings::{named_query, object_test};
use qvt_ocl::operands::is_invalid;
use qvt_run_data::exit::Halt;
use qvt_run_data::questions::{ModelQuery, ObjectTest};
use qvt_types_data::note::{Note, Reading};
use qvt_types_nodes::tree::TypedStep;
use qvt_types_steps::classes::{ClassTest, model_call_named};
use qvt_value::value::Value;
use std::alloc::Global;

/// A property of a value.
#[tactic(auto, unfolding(qvt_run_rules::specs::Expressions::dot))]
pub fn property_by(
    alloc: Global,
    limit: Option<u64>,
    note: &Note,
    place: Place,
    value: Value,
    state: &mut RunState<'_>,
) -> Result<Value, Halt>
    ensures { Runs (by.property_by (spend_of limit) note.now.reading note.now.collect place value (seen state.old)) result state.new }
{
    match &note.reading {
        Reading::Feature(feature) => {
            tick(limit, state)?;
            let leaf = Leaf::Property(*feature);
            dotted(alloc, note.collect, &leaf, place, &value, state)
        }
        _ => misfit(place),
    }
}

/// A test or cast of objects.
#[tactic(auto, unfolding(qvt_run_rules::specs::Expressions::object_tested))]
pub fn object_tested(
    alloc: Global,
    limit: Option<u64>,
    collect: bool,
    test: ObjectTest,
    class: u32,
    place: Place,
    value: Value,
    state: &mut RunState<'_>,
) -> Result<Value, Halt>
    ensures { Runs (rule.object_tested (spend_of limit) collect test class place value (seen state.old)) result state.new }
{
    tick(limit, state)?;
    let leaf = Leaf::Test(test, ClassNo(class));
    dotted(alloc, collect, &leaf, place, &value, state)
}

/// A test or cast by its name, with the class that its argument names, if it names one.
pub fn tested_by(
    alloc: Global,
    limit: Option<u64>,
    test: ClassTest,
    class: Option<u32>,
    collect: bool,
    place: Place,
    value: Value,
    state: &mut RunState<'_>,
) -> Result<Value, Halt>
    ensures { Runs (by.tested_by (spend_of limit) (Some test) class collect place value (seen state.old)) result state.new }
{
    match class {
        Some(class) => object_tested(
            alloc,
            limit,
            collect,
            object_test(test),
            class,
            place,
            value,
            state,
        ),
        None => misfit(place),
    }
}

/// What goes over items, on a value that has none.
pub fn without_items(value: Value, place: Place) -> Result<Value, Halt>
    ensures { result ≡ without_items value place }
{
    if is_invalid(&value) {
        Ok(value)
    } else {
        misfit(place)
    }
}

/// A selection of objects by their class, of it alone or of those below it too.
#[tactic(auto, using(crate::proofs::Over::over_none), unfolding(qvt_run_rules::specs::Expressions::select_class))]
pub fn select_class(
    alloc: Global,
    limit: Option<u64>,
    exact: bool,
    class: u32,
    place: Place,
    value: Value,
    state: &mut RunState<'_>,
) -> Result<Value, Halt>
    ensures { Runs (rule.select_class (spend_of limit) exact class place value (seen state.old)) result state.new }
{
    tick(limit, state)?;
    match value.into_items() {
        Ok((kind, items)) => {
            let kept = selected(
                alloc,
                state.store.as_store(),
                exact,
                ClassNo(class),
                place,
                kind,
                items,
            )?;
            found(kept, place, state)
        }
        Err(other) => without_items(other, place),
    }
}

/// A selection by its name, with the class that its argument names, if it names one.
pub fn selection(
    alloc: Global,
    limit: Option<u64>,
    name: &Text,
    class: Option<u32>,
    place: Place,
    value: Value,
    state: &mut RunState<'_>,
) -> Result<Value, Halt>
    ensures { Runs (by.selection_by (spend_of limit) name.now class place value (seen state.old)) result state.new }
{
    match class {
        Some(class) => {
            let exact = name.as_str() == "selectByType";
            select_class(alloc, limit, exact, class, place, value, state)
        }
        None => misfit(place),
    }
}

/// An operation of a model, behind the model's name.
#[tactic(auto, unfolding(qvt_run_rules::specs::Expressions::model_step))]
fn model_step(
    alloc: Global,
    limit: Option<u64>,
    query: ModelQuery,
    model: u32,
    place: Place,
    state: &mut RunState<'_>,
) -> Result<Value, Halt>
    ensures { Runs (rule.model_step (spend_of limit) query model place (seen state.old)) result state.new }
{
    tick(limit, state)?;
    tick(limit, state)?;
    Ok(model_value(alloc, state.store.as_store(), query, model, place)?)
}

/// The name of a model with its first step.
pub fn model_first(
    alloc: Global,
    limit: Option<u64>,
    model: u32,
    place: Place,
    all: &[TypedStep],
    state: &mut RunState<'_>,
) -> Result<Value, Halt>
    ensures { Runs (by.model_first (spend_of limit) model place (typed_steps_of (map typed_step_view all.now)) (seen state.old)) result state.new }
{
    match all {
        [
            TypedStep::Dot {
                name,
                args: Some(args),
                place,
                ..
            },
            ..
        ] => match named_query(
            model_call_named(name.as_str()),
            class_argument(args.as_slice()),
        ) {
            Some(query) => model_step(alloc, limit, query, model, *place, state),
            None => misfit(*place),
        },
        _ => misfit(place),
    }
}
