//! Calls for each item of a collection.

ghost use Rattle.std.specs.Prelude.{◌≡◌, ◌<◌, IfOk, OnOk};
ghost use Rattle.qvt_run_rules.specs.Sources.{for_items};
ghost use Rattle.qvt_program_units.specs.Readings as by;
ghost use Rattle.qvt_program_units.specs.Program.{program_view};
ghost use Rattle.qvt_exec_state.specs.Runs.{Runs, seen};
ghost use Rattle.qvt_exec_phrases.specs.Choice.{each_by, item_by, items_by, mapped_by};

use crate::choice::{Choosing, call_on_item};
use crate::mapped::mapped;
use crate::objects::objects_in;
use crate::units::{ReadyUnits, UnitCalls};
use qvt_base::list_fault::ListFault;
use qvt_base::numbers::Place;
use qvt_base::seq::Seq;
use qvt_exec_state::state::RunState;
use qvt_exec_state::steps::misfit;
use qvt_exec_words::made::built_flat;
use qvt_exec_words::sources::collected_kind;
use qvt_program_units::program::Program;
use qvt_run_data::exit::Halt;
use qvt_types_data::note::Reading;
use qvt_value::copy::copies;
use qvt_value::value::{Kind, Reason, Value, Values};
use std::alloc::Global;
use std::mem;

/// The arguments for one call more, behind which so many are left: copies, but for the last.
pub(crate) fn args_for(alloc: Global, args: &mut Values, left: usize) -> Result<Values, ListFault>
    ensures own { IfOk result (λ own. own ≡ args.old) }
    ensures kept { OnOk result (0 < left → args.new ≡ args.old) }
{
    if left == 0 {
        Ok(mem::replace(args, Seq::new(alloc)))
    } else {
        copies(alloc, args.as_slice())
    }
}

/// The calls for the items of a collection, in their order: their answers flattened, or the first that is
/// invalid.
#[cycle(calls)]
fn on_list<C: UnitCalls>(
    how: &Choosing<'_>,
    units: &ReadyUnits<C>,
    items: &[Value],
    kind: Kind,
    args: Values,
    state: &mut RunState<'_>,
) -> Result<Value, Halt>
    ensures { Runs (items_by (C.means units.now).calls how.now args kind items.now (seen state.old)) result state.new }
{
    let mut args = args;
    let mut left = items.len();
    let mut done = Seq::new(how.alloc);
    for item in items {
        left -= 1;
        let own = args_for(how.alloc, &mut args, left)?;
        let value = on_items(how, units, item, own, state)?;
        if let Value::Invalid(reason, cause) = &value {
            return Ok(Value::Invalid(*reason, *cause));
        }
        done.push(value)?;
    }
    let kind = collected_kind(kind);
    Ok(built_flat(how.alloc, how.place, kind, done.as_slice())?)
}

/// The call for an item, or the calls for the items of one that is a collection.
#[cycle(calls)]
fn on_items<C: UnitCalls>(
    how: &Choosing<'_>,
    units: &ReadyUnits<C>,
    item: &Value,
    args: Values,
    state: &mut RunState<'_>,
) -> Result<Value, Halt>
    ensures { Runs (for_items how.now.place (item_by (C.means units.now).calls how.now args) item.now (seen state.old)) result state.new }
{
    match item {
        Value::Coll(kind, items) => on_list(how, units, items.as_slice(), *kind, args, state),
        other => call_on_item(how, units, args, other, state),
    }
}

/// The calls of a helper or a query for the items of a collection, with these arguments. They are copied
/// once for each item but the last.
pub fn each_called<C: UnitCalls>(
    alloc: Global,
    program: &Program,
    units: &ReadyUnits<C>,
    reading: &Reading,
    strict: bool,
    place: Place,
    args: Values,
    value: Value,
    state: &mut RunState<'_>,
) -> Result<Value, Halt>
    ensures { Runs (each_by (C.means units.now).calls (by.choose (program_view program.now) reading.now strict place) args place value (seen state.old)) result state.new }
{
    let how = Choosing {
        alloc,
        program,
        reading,
        strict,
        place,
    };
    match &value {
        Value::Null => Ok(Value::Invalid(Reason::NullSource, place)),
        Value::Invalid(reason, cause) => Ok(Value::Invalid(*reason, *cause)),
        Value::Coll(_, _) => on_items(&how, units, &value, args, state),
        _ => misfit(place),
    }
}

/// The calls of a mapping for the objects of a value, with these arguments. They are copied once for each
/// object but the last.
pub fn map_each<C: UnitCalls>(
    alloc: Global,
    program: &Program,
    units: &ReadyUnits<C>,
    reading: &Reading,
    strict: bool,
    place: Place,
    args: Values,
    value: Value,
    state: &mut RunState<'_>,
) -> Result<Value, Halt>
    ensures { Runs (mapped_by (C.means units.now).calls (by.choose (program_view program.now) reading.now strict place) args place value (seen state.old)) result state.new }
{
    let how = Choosing {
        alloc,
        program,
        reading,
        strict,
        place,
    };
    match objects_in(alloc, value)? {
        None => misfit(place),
        Some(objects) => mapped(&how, units, args, objects.as_slice(), state),
    }
}
