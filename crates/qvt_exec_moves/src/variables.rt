//! Variables: their declarations and their values.
//!
//! A scope is `let outer = state.locals.len();` before what is in it, and `state.locals.truncate(outer);`
//! behind it, whatever came of it.

ghost use Rattle.std.specs.Prelude.{◌≡◌, ◌<◌, length, slice_get, slice_set, IfOk, OnOk, OnErr, Some};
ghost use Rattle.std.specs.Option.{option_copied};
ghost use Rattle.qvt_run_rules.specs.Locals.{local, place_in, push, set};
ghost use Rattle.qvt_exec_state.specs.Runs.{Runs, seen, with_local};
ghost use Rattle.qvt_exec_moves.specs.Moves.{declared, set_there};

use crate::values::{asked, taken};
use qvt_base::copied::Copied;
use qvt_base::list_fault::ListFault;
use qvt_base::numbers::Place;
use qvt_base::seq::Seq;
use qvt_base::text::Text;
use qvt_exec_state::state::RunState;
use qvt_exec_state::steps::misfit;
use qvt_run_data::exit::Halt;
use qvt_run_data::local::Local;
use qvt_types_data::ty::Ty;
use qvt_value::value::Value;
use std::alloc::Global;
use std::mem;

/// A variable of its own memory.
fn local_of(alloc: Global, name: &Text, of: Option<&Ty>, value: Value) -> Result<Local, ListFault>
    ensures { IfOk result (λ l. l ≡ local name.now (option_copied of.entry) value) }
{
    let name = name.copy(alloc)?;
    let asked = match of {
        None => None,
        Some(of) => Some(of.copy(alloc)?),
    };
    Ok(Local { name, asked, value })
}

/// Brings a variable into scope, with the type that an assignment to it asks. A refused call changes
/// nothing.
pub fn bind_typed(
    alloc: Global,
    state: &mut RunState<'_>,
    name: &Text,
    of: Option<&Ty>,
    value: Value,
) -> Result<(), ListFault>
    ensures ok { OnOk result (seen state.new ≡ with_local (local name.now (option_copied of.entry) value) (seen state.old)) }
    ensures err { OnErr result (seen state.new ≡ seen state.old) }
{
    let local = local_of(alloc, name, of, value)?;
    state.locals.push(local)
}

/// One variable more, the latest.
#[tactic(auto, unfolding(qvt_run_rules::specs::Locals::push))]
pub fn push(local: Local, state: &mut RunState<'_>) -> Result<(), Halt>
    ensures { Runs (push local (seen state.old)) result state.new }
{
    state.locals.push(local)?;
    Ok(())
}

/// A variable with its first value, which is of its type if it has one.
pub fn declare(
    alloc: Global,
    name: &Text,
    of: Option<&Ty>,
    place: Place,
    value: Value,
    state: &mut RunState<'_>,
) -> Result<(), Halt>
    ensures { Runs (declared name.now (option_copied of.entry) place value (seen state.old)) result state.new }
{
    let value = taken(of, place, value, state)?;
    let local = local_of(alloc, name, of, value)?;
    push(local, state)
}

/// Where the first variable of that name stands.
pub(crate) fn place_in(locals: &[Local], name: &str) -> Option<usize>
    ensures { result ≡ place_in name.now locals.now }
{
    locals.iter().position(|local| name == local.name.as_str())
}

/// The variable at this place has this value. Nothing is copied.
pub(crate) fn revalue(alloc: Global, locals: &mut Seq<Local>, at: usize, value: Value)
    requires { at < length locals.old }
    ensures { (l : Local) → slice_get locals.old at ≡ Some l → locals.new ≡ slice_set locals.old at (local l.name l.asked value) }
{
    let mut all = mem::replace(locals, Seq::new(alloc)).into_vec();
    let held = &mut all[at];
    held.value = value;
    *locals = Seq::from_vec(all);
}

/// The variable at this place keeps its type, which the value has to have.
pub(crate) fn set_there(
    alloc: Global,
    at: usize,
    value: Value,
    place: Place,
    state: &mut RunState<'_>,
) -> Result<(), Halt>
    ensures { Runs (set_there at value place (seen state.old)) result state.new }
{
    let Some(held) = state.locals.get(at) else {
        return misfit(place);
    };
    let value = asked(held.asked.as_ref(), place, value, state)?;
    revalue(alloc, &mut state.locals, at, value);
    Ok(())
}

/// The first variable of that name keeps its type, which the value has to have.
#[tactic(auto, using(crate::proofs::Named::without_place))]
pub fn set_variable(
    alloc: Global,
    name: &str,
    value: Value,
    place: Place,
    state: &mut RunState<'_>,
) -> Result<(), Halt>
    ensures { Runs (set name.now value place (seen state.old)) result state.new }
{
    match place_in(state.locals.as_slice(), name) {
        Some(at) => set_there(alloc, at, value, place, state),
        None => misfit(place),
    }
}
