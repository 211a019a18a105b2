//! The results of mappings.

ghost use Rattle.std.specs.Prelude.{◌≡◌, ◌++◌, IfOk, option_map};
ghost use Rattle.qvt_meaning.specs.Units as of_units;
ghost use Rattle.qvt_run_rules.specs.Mappings as rule;
ghost use Rattle.qvt_exec_state.specs.Runs.{Runs, seen};
ghost use Rattle.qvt_exec_state.specs.declared.state.RunState.{RunState};
ghost use Rattle.qvt_exec_candidates.specs.Begun.{RunsTo, made_view, making_view};
ghost use Rattle.qvt_exec_candidates.specs.Stage.{rule_of};

use crate::begun::Made;
use crate::faults::faulted;
use crate::mapping::MappingUnit;
use crate::run::Run;
use qvt_base::list_fault::ListFault;
use qvt_base::numbers::{ClassNo, Oid, Place};
use qvt_base::seq::Seq;
use qvt_base::text::Text;
use qvt_exec_moves::objects::new_object;
use qvt_exec_moves::variables::set_variable;
use qvt_exec_phrases::units::{ReadyUnits, UnitCalls};
use qvt_exec_state::locals::local_named;
use qvt_exec_state::names::RESULT_NAME;
use qvt_exec_state::state::RunState;
use qvt_exec_state::steps::misfit;
use qvt_run_data::exit::Halt;
use qvt_run_data::fault::RunFault;
use qvt_run_data::local::Local;
use qvt_types_data::note::Reading;
use qvt_types_data::ty::Ty;
use qvt_types_nodes::module::TypedResultDecl;
use qvt_value::value::Value;
use std::alloc::Global;

/// A class, and the extent in which its objects are made.
#[derive(Clone, Copy)]
pub struct Making {
    pub class: u32,
    pub extent: u32,
}

fn made_in(reading: &Reading) -> Option<Making>
    ensures { option_map making_view result ≡ of_units.made_in reading.now }
{
    match reading {
        Reading::Make(class, extent) => Some(Making {
            class: class.0,
            extent: *extent,
        }),
        _ => None,
    }
}

/// The class of which a mapping makes its result, if it has one.
pub fn making_of(declared: &Option<TypedResultDecl>) -> Option<Making>
    ensures { option_map making_view result ≡ of_units.result_of declared.now }
{
    match declared {
        None => None,
        Some(declared) => made_in(&declared.note.reading),
    }
}

/// The object that a result is, or null.
pub fn value_of(outcome: Option<Oid>) -> Value
    ensures { result ≡ rule.value_of outcome }
{
    match outcome {
        None => Value::Null,
        Some(object) => Value::Obj(object),
    }
}

/// These variables, and after them `result` with this value, in a mapping that has one.
pub fn with_result(
    alloc: Global,
    making: Option<Making>,
    value: Value,
    locals: Seq<Local>,
) -> Result<Seq<Local>, ListFault>
    ensures { IfOk result (λ own. own ≡ locals ++ rule.result_local (option_map making_view making) value) }
{
    match making {
        None => Ok(locals),
        Some(making) => {
            let mut own = locals;
            let name = Text::from_str(alloc, RESULT_NAME)?;
            own.push(Local {
                name,
                asked: Some(Ty::Class(ClassNo(making.class))),
                value,
            })?;
            Ok(own)
        }
    }
}

fn object_in(place: Place, value: &Value) -> Result<Option<Oid>, Halt>
    ensures { (s : RunState) → Runs (rule.object_in place value.now (seen s)) result s }
{
    match value {
        Value::Null => Ok(None),
        Value::Obj(object) => Ok(Some(*object)),
        _ => misfit(place),
    }
}

/// The result that the init section has set.
#[tactic(auto, unfolding(qvt_run_rules::specs::Locals::read))]
pub fn result_read(
    making: Option<Making>,
    place: Place,
    state: &RunState<'_>,
) -> Result<Option<Oid>, Halt>
    ensures { Runs (rule.result_read (option_map making_view making) place (seen state.now)) result state.now }
{
    match making {
        None => Ok(None),
        Some(_) => match local_named(state.locals.as_slice(), RESULT_NAME) {
            Some(local) => object_in(place, &local.value),
            None => misfit(place),
        },
    }
}

/// A new object of the class: none of an abstract one.
fn made_of(making: Making, place: Place, state: &mut RunState<'_>) -> Result<Oid, Halt>
    ensures { Runs (rule.made_of making.class making.extent place (seen state.old)) result state.new }
{
    let class = ClassNo(making.class);
    if state.store.as_store().metas().is_abstract(class) {
        return faulted(RunFault::NoResult, place);
    }
    new_object(class, making.extent, place, state)
}

fn kept_as(alloc: Global, place: Place, object: Oid, state: &mut RunState<'_>) -> Result<Made, Halt>
    ensures { RunsTo made_view (rule.kept_as place object (seen state.old)) result state.new }
{
    set_variable(alloc, RESULT_NAME, Value::Obj(object), place, state)?;
    Ok(Made::New(Some(object)))
}

/// A new object, if the mapping has a result.
fn completed_as(
    alloc: Global,
    making: Option<Making>,
    place: Place,
    state: &mut RunState<'_>,
) -> Result<Made, Halt>
    ensures { RunsTo made_view (rule.completed_as (option_map making_view making) place (seen state.old)) result state.new }
{
    match making {
        None => Ok(Made::New(None)),
        Some(making) => {
            let object = made_of(making, place, state)?;
            kept_as(alloc, place, object, state)
        }
    }
}

/// The result that the init section has set, else a new object.
#[tactic(auto, unfolding(crate::specs::Stage::rule_in))]
pub fn completed<C: UnitCalls>(
    run: &Run,
    units: &ReadyUnits<C>,
    mapping: &MappingUnit<'_>,
    set: Option<Oid>,
    state: &mut RunState<'_>,
) -> Result<Made, Halt>
    ensures { RunsTo made_view (rule.completed (rule_of (run.now, C.means units.now) mapping.now) set (seen state.old)) result state.new }
{
    match set {
        None => {
            let making = making_of(&mapping.node.result);
            completed_as(run.alloc, making, mapping.node.place, state)
        }
        Some(object) => Ok(Made::New(Some(object))),
    }
}
