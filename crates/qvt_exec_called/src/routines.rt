//! Calls of helpers, queries and constructors (QVT 1.3, 8.2.1.13 and 8.2.1.14).

ghost use Rattle.std.specs.Prelude.{◌≡◌, ◌∷◌, ◌++◌, IfOk};
ghost use Rattle.qvt_value.specs.declared.value.Value.{Obj};
ghost use Rattle.qvt_run_rules.specs.Calls as rule;
ghost use Rattle.qvt_run_rules.specs.State.{caught};
ghost use Rattle.qvt_run_rules.specs.Locals.{fixed, in_frame, result_name, self_name};
ghost use Rattle.qvt_exec_state.specs.Runs.{Runs, seen};
ghost use Rattle.qvt_exec_called.specs.Routines.{routine_of};

use crate::bodies::body;
use crate::routine_at::RoutineUnit;
use qvt_base::list_fault::ListFault;
use qvt_base::numbers::{ClassNo, Oid, Place};
use qvt_base::seq::Seq;
use qvt_base::text::Text;
use qvt_exec_candidates::run::Run;
use qvt_exec_moves::objects::new_object;
use qvt_exec_phrases::frames::{bound, frame};
use qvt_exec_phrases::given::{caught, given};
use qvt_exec_phrases::nested::Nested;
use qvt_exec_phrases::units::ReadyUnits;
use qvt_exec_state::names::{RESULT_NAME, SELF_NAME};
use qvt_exec_state::state::RunState;
use qvt_run_data::exit::Halt;
use qvt_run_data::local::Local;
use qvt_types_units::numbers::has_context;
use qvt_value::value::{Value, Values};
use std::alloc::Global;
use std::mem;

/// The body over variables of its own.
#[tactic(auto, unfolding(qvt_run_rules::specs::Locals::in_frame, crate::specs::Routines::routine_in), using(qvt_exec_candidates::proofs::Under::under_runs))]
fn framed<C: Nested>(
    run: &Run,
    units: &ReadyUnits<C>,
    routine: &RoutineUnit<'_>,
    locals: Seq<Local>,
    state: &mut RunState<'_>,
) -> Result<(), Halt>
    ensures { Runs (in_frame locals (routine_of (run.now, C.means units.now) routine.now).body (seen state.old)) result state.new }
{
    let outer = mem::replace(&mut state.locals, locals);
    let inner = mem::replace(&mut state.inner, None);
    let nodes = routine.node.body.as_slice();
    let done = body(run, units, &routine.head.answer, nodes, state);
    state.locals = outer;
    state.inner = inner;
    done
}

/// A helper or a query with these variables.
fn answered<C: Nested>(
    run: &Run,
    units: &ReadyUnits<C>,
    routine: &RoutineUnit<'_>,
    locals: Seq<Local>,
    state: &mut RunState<'_>,
) -> Result<Value, Halt>
    ensures { Runs (rule.given (in_frame locals (routine_of (run.now, C.means units.now) routine.now).body) (seen state.old)) result state.new }
{
    let done = framed(run, units, routine, locals, state);
    given(done)
}

/// A helper or a query on its context, with these arguments.
#[inline(never)]
#[tactic(auto, unfolding(qvt_run_rules::specs::Calls::helper, crate::specs::Routines::routine_in))]
pub fn helper<C: Nested>(
    run: &Run,
    units: &ReadyUnits<C>,
    routine: &RoutineUnit<'_>,
    context: Option<Oid>,
    args: Values,
    place: Place,
    state: &mut RunState<'_>,
) -> Result<Value, Halt>
    ensures { Runs (rule.helper (routine_of (run.now, C.means units.now) routine.now) context args place (seen state.old)) result state.new }
{
    let has_self = has_context(routine.head.context);
    let params = routine.node.params.as_slice();
    let types = routine.head.params.as_slice();
    let locals = frame(
        run.alloc, has_self, params, types, context, args, place, state,
    )?;
    answered(run, units, routine, locals, state)
}

fn object_named(alloc: Global, name: &str, object: Oid) -> Result<Local, ListFault>
    ensures { IfOk result (λ local. local ≡ fixed name.now (Obj object)) }
{
    let name = Text::from_str(alloc, name)?;
    Ok(Local {
        name,
        asked: None,
        value: Value::Obj(object),
    })
}

/// These variables, and after them the others.
fn joined(first: Seq<Local>, others: Seq<Local>) -> Result<Seq<Local>, ListFault>
    ensures { IfOk result (λ all. all ≡ first ++ others) }
{
    let mut all = first.into_vec();
    let mut more = others.into_vec();
    match all.append(&mut more) {
        Ok(()) => Ok(Seq::from_vec(all)),
        Err(_) => Err(ListFault::NoMemory),
    }
}

/// The new object as `self` and `result`, and these variables.
#[inline(never)]
fn with_new(alloc: Global, object: Oid, locals: Seq<Local>) -> Result<Seq<Local>, ListFault>
    ensures { IfOk result (λ own. own ≡ fixed self_name (Obj object) ∷ fixed result_name (Obj object) ∷ locals) }
{
    let mut own = Seq::new(alloc);
    own.push(object_named(alloc, SELF_NAME, object)?)?;
    own.push(object_named(alloc, RESULT_NAME, object)?)?;
    joined(own, locals)
}

/// Whether a `return` ended the body.
fn framed_returns<C: Nested>(
    run: &Run,
    units: &ReadyUnits<C>,
    routine: &RoutineUnit<'_>,
    locals: Seq<Local>,
    state: &mut RunState<'_>,
) -> Result<bool, Halt>
    ensures { Runs (caught (in_frame locals (routine_of (run.now, C.means units.now) routine.now).body) (seen state.old)) result state.new }
{
    let done = framed(run, units, routine, locals, state);
    caught(done)
}

/// The body of a constructor on the new object.
fn on_new<C: Nested>(
    run: &Run,
    units: &ReadyUnits<C>,
    routine: &RoutineUnit<'_>,
    locals: Seq<Local>,
    object: Oid,
    state: &mut RunState<'_>,
) -> Result<Value, Halt>
    ensures { Runs (rule.on_new (routine_of (run.now, C.means units.now) routine.now) locals object (seen state.old)) result state.new }
{
    let own = with_new(run.alloc, object, locals)?;
    let _returned = framed_returns(run, units, routine, own, state)?;
    Ok(Value::Obj(object))
}

/// A constructor, with the class and the extent of the new object.
#[inline(never)]
#[tactic(auto, unfolding(qvt_run_rules::specs::Calls::constructor_, crate::specs::Routines::routine_in))]
pub fn constructor<C: Nested>(
    run: &Run,
    units: &ReadyUnits<C>,
    routine: &RoutineUnit<'_>,
    class: u32,
    extent: u32,
    args: Values,
    place: Place,
    state: &mut RunState<'_>,
) -> Result<Value, Halt>
    ensures { Runs (rule.constructor_ (routine_of (run.now, C.means units.now) routine.now) class extent args place (seen state.old)) result state.new }
{
    let object = new_object(ClassNo(class), extent, place, state)?;
    let params = routine.node.params.as_slice();
    let types = routine.head.params.as_slice();
    let locals = bound(run.alloc, params, types, args, place, state)?;
    on_new(run, units, routine, locals, object, state)
}
