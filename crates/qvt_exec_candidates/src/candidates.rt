//! Disjunction: the candidates of a dispatcher.

ghost use Rattle.std.specs.Prelude.{◌≡◌};
ghost use Rattle.qvt_meaning.specs.Program.{known_class};
ghost use Rattle.qvt_run_rules.specs.Mappings as rule;
ghost use Rattle.qvt_store.specs.Contents.{class_of};
ghost use Rattle.qvt_exec_state.specs.Runs.{Runs, seen};
ghost use Rattle.qvt_exec_candidates.specs.Framed.{framed_holds};
ghost use Rattle.qvt_exec_candidates.specs.Stage.{mappings_of, rule_of};

use crate::conditions::condition;
use crate::frames::frame_of;
use crate::mapping::{MappingUnit, mapping_at};
use crate::run::Run;
use qvt_base::copied::Copied;
use qvt_base::numbers::{ClassNo, Oid, Place};
use qvt_base::seq::Seq;
use qvt_exec_phrases::nested::Nested;
use qvt_exec_phrases::numbers::no_unit;
use qvt_exec_phrases::units::{ReadyUnits, UnitCalls};
use qvt_exec_state::state::RunState;
use qvt_exec_state::steps::misfit;
use qvt_run_data::callee::{Callee, Way};
use qvt_run_data::exit::Halt;
use qvt_run_data::local::Local;
use qvt_store::store::Store;
use qvt_types_units::signature::HeadClass;
use qvt_value::value::{Value, Values};
use std::mem;

/// Whether `when` is true over these variables, where the mapping has one.
#[tactic(auto, unfolding(qvt_run_rules::specs::Locals::in_frame, crate::specs::Stage::rule_in), using(crate::proofs::Under::under_runs))]
pub fn when_holds<C: Nested>(
    run: &Run,
    units: &ReadyUnits<C>,
    mapping: &MappingUnit<'_>,
    locals: Seq<Local>,
    state: &mut RunState<'_>,
) -> Result<bool, Halt>
    ensures { Runs (rule.when_holds (rule_of (run.now, C.means units.now) mapping.now).when locals (seen state.old)) result state.new }
{
    match &mapping.node.condition {
        None => Ok(true),
        Some(node) => {
            let outer = mem::replace(&mut state.locals, locals);
            let inner = mem::replace(&mut state.inner, None);
            let holds = condition(run, units, node, state);
            state.locals = outer;
            state.inner = inner;
            holds
        }
    }
}

/// Whether `when` is true over copies of these variables, where the mapping has one.
#[tactic(auto, unfolding(crate::specs::Stage::rule_in))]
pub fn is_asked<C: Nested>(
    run: &Run,
    units: &ReadyUnits<C>,
    mapping: &MappingUnit<'_>,
    locals: &Seq<Local>,
    state: &mut RunState<'_>,
) -> Result<bool, Halt>
    ensures { Runs (rule.when_holds (rule_of (run.now, C.means units.now) mapping.now).when locals.now (seen state.old)) result state.new }
{
    if mapping.node.condition.is_none() {
        return Ok(true);
    }
    let copies = locals.copy(run.alloc)?;
    when_holds(run, units, mapping, copies, state)
}

/// The class of an object, 0 where the object is not there.
fn class_of(store: &Store, object: Oid) -> ClassNo
    ensures { result.0 ≡ class_of store.now object.0 }
{
    if object.0 < store.len() {
        store.class_of(object)
    } else {
        ClassNo(0)
    }
}

/// Whether an object is of the class of a context, where that has one.
fn of_class_in(context: HeadClass, object: Option<Oid>, state: &RunState<'_>) -> bool
    ensures { result ≡ rule.of_class_in (known_class context) object (seen state.now) }
{
    match context {
        HeadClass::Known(class) => match object {
            None => false,
            Some(object) => {
                let store = state.store.as_store();
                store.metas().descends(class_of(store, object), class)
            }
        },
        _ => true,
    }
}

/// Whether an object is of the mapping's context class, where it has one.
#[tactic(auto, unfolding(crate::specs::Stage::rule_in))]
fn is_of_context<C: UnitCalls>(
    run: &Run,
    units: &ReadyUnits<C>,
    mapping: &MappingUnit<'_>,
    object: Option<Oid>,
    state: &RunState<'_>,
) -> bool
    ensures { result ≡ rule.of_class_in (rule_of (run.now, C.means units.now) mapping.now).context object (seen state.now) }
{
    of_class_in(mapping.head.context, object, state)
}

/// Whether `when` is true over the variables of a call.
fn framed_holds<C: Nested>(
    run: &Run,
    units: &ReadyUnits<C>,
    mapping: &MappingUnit<'_>,
    context: Option<Oid>,
    args: &Values,
    place: Place,
    state: &mut RunState<'_>,
) -> Result<bool, Halt>
    ensures { Runs (framed_holds (mappings_of (run.now, C.means units.now)) (C.means units.now).calls (rule_of (run.now, C.means units.now) mapping.now) context args.now place (seen state.old)) result state.new }
{
    let locals = frame_of(run, units, mapping, context, args, place, state)?;
    when_holds(run, units, mapping, locals, state)
}

/// Whether the context is of the mapping's context class, and `when` is true.
#[tactic(auto, unfolding(qvt_run_rules::specs::Mappings::fits))]
fn fits<C: Nested>(
    run: &Run,
    units: &ReadyUnits<C>,
    mapping: &MappingUnit<'_>,
    context: Option<Oid>,
    args: &Values,
    place: Place,
    state: &mut RunState<'_>,
) -> Result<bool, Halt>
    ensures { Runs (rule.fits (mappings_of (run.now, C.means units.now)) (C.means units.now).calls (rule_of (run.now, C.means units.now) mapping.now) context args.now place (seen state.old)) result state.new }
{
    if is_of_context(run, units, mapping, context, state) {
        framed_holds(run, units, mapping, context, args, place, state)
    } else {
        Ok(false)
    }
}

/// The first of the candidates that fits is called, without its `when` again.
pub fn dispatch<C: Nested>(
    run: &Run,
    units: &ReadyUnits<C>,
    numbers: &[u32],
    context: Option<Oid>,
    args: &Values,
    place: Place,
    state: &mut RunState<'_>,
) -> Result<Value, Halt>
    ensures { Runs (rule.dispatch (mappings_of (run.now, C.means units.now)) (C.means units.now).calls numbers.now context args.now place (seen state.old)) result state.new }
{
    let none = no_unit(run.alloc);
    for number in numbers {
        match mapping_at(units, &none, *number) {
            None => return misfit(place),
            Some(mapping) => {
                if fits(run, units, &mapping, context, args, place, state)? {
                    let values = args.copy(run.alloc)?;
                    let callee = Callee::MappingCall(*number, Way::Chosen, context);
                    return units.call(callee, values, place, state);
                }
            }
        }
    }
    Ok(Value::Null)
}
