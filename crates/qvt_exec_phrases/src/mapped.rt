//! Calls of a mapping for objects.

ghost use Rattle.std.specs.Prelude.{◌≡◌, [], OnOk};
ghost use Rattle.qvt_run_rules.specs.Calls as rule;
ghost use Rattle.qvt_exec_state.specs.Runs.{Runs, seen};
ghost use Rattle.qvt_exec_phrases.specs.Choice.{callee_by, with_result};

use crate::choice::{Choosing, call_on};
use crate::each::args_for;
use crate::units::{ReadyUnits, UnitCalls};
use qvt_base::list_fault::ListFault;
use qvt_base::numbers::Oid;
use qvt_base::seq::Seq;
use qvt_exec_state::state::RunState;
use qvt_exec_words::made::built;
use qvt_ocl_lists::items::is_null;
use qvt_run_data::exit::Halt;
use qvt_value::value::{Kind, Value, Values};

/// Puts a result last, unless it is null.
fn push_result(done: &mut Values, value: Value) -> Result<(), ListFault>
    ensures { OnOk result (done.new ≡ with_result value done.old) }
{
    if is_null(&value) {
        return Ok(());
    }
    done.push(value)
}

/// The calls for objects, in order: the Sequence of the results that are not null.
pub(crate) fn mapped<C: UnitCalls>(
    how: &Choosing<'_>,
    units: &ReadyUnits<C>,
    args: Values,
    objects: &[Oid],
    state: &mut RunState<'_>,
) -> Result<Value, Halt>
    ensures { Runs (rule.mapped_onto (C.means units.now).calls how.now.place [] (rule.call_on (C.means units.now).calls (callee_by how.now) args how.now.place) objects.now (seen state.old)) result state.new }
{
    let mut args = args;
    let mut left = objects.len();
    let mut done = Seq::new(how.alloc);
    for object in objects {
        left -= 1;
        let own = args_for(how.alloc, &mut args, left)?;
        let value = call_on(how, units, own, *object, state)?;
        push_result(&mut done, value)?;
    }
    Ok(built(how.alloc, how.place, Kind::Sequence, done)?)
}
