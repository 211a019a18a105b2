//! Object expressions (QVT 1.3, 8.2.2.24 and 8.2.1.24).

ghost use Rattle.qvt_run_rules.specs.Cost.{spend_of};
ghost use Rattle.qvt_run_rules.specs.Locals.{inside};
ghost use Rattle.qvt_run_rules.specs.Statements as statement;
ghost use Rattle.qvt_types_data.specs.declared.ty.Ty.TheVariants as ty;
ghost use Rattle.qvt_exec_phrases.specs.Readings as by;
ghost use Rattle.qvt_exec_state.specs.Runs.{Runs, seen};
ghost use Rattle.qvt_exec_phrases.specs.Means.{barred_in, block_of, setting_of};

use qvt_base::numbers::{ClassNo, Oid, Place};
use qvt_exec_moves::objects::{new_object, variable_object};
use qvt_exec_phrases::engine::Engine;
use qvt_exec_phrases::nested::{Nested, block};
use qvt_exec_phrases::units::ReadyUnits;
use qvt_exec_state::names::RESULT_NAME;
use qvt_exec_state::state::RunState;
use qvt_exec_state::steps::{misfit, tick};
use qvt_run_data::exit::Halt;
use qvt_types_data::note::{Note, Reading};
use qvt_types_data::ty::Ty;
use qvt_types_nodes::tree::TypedStmts;
use qvt_types_nodes::types::TypedObjectVar;
use qvt_value::value::Value;

/// A body whose bare names mean the properties of this object.
#[inline(never)]
#[tactic(auto, unfolding(qvt_run_rules::specs::Locals::inside))]
fn body_inside<C: Nested>(
    x: &Engine<'_>,
    units: &ReadyUnits<C>,
    body: &TypedStmts,
    object: Oid,
    state: &mut RunState<'_>,
) -> Result<(), Halt>
    ensures { Runs (inside object (block_of (x.now, C.means units.now) body.now) (seen state.old)) result state.new }
{
    let outer = state.inner;
    state.inner = Some(object);
    let done = block(x, units, body, state);
    state.inner = outer;
    done
}

/// The body on an object.
#[tactic(auto, unfolding(qvt_run_rules::specs::Statements::on_object))]
fn on_object<C: Nested>(
    x: &Engine<'_>,
    units: &ReadyUnits<C>,
    body: &TypedStmts,
    object: Oid,
    state: &mut RunState<'_>,
) -> Result<Value, Halt>
    ensures { Runs (statement.on_object (block_of (x.now, C.means units.now) body.now) object (seen state.old)) result state.new }
{
    body_inside(x, units, body, object, state)?;
    Ok(Value::Obj(object))
}

/// A new object.
#[inline(never)]
#[tactic(auto, unfolding(qvt_run_rules::specs::Statements::object))]
fn object<C: Nested>(
    x: &Engine<'_>,
    units: &ReadyUnits<C>,
    body: &TypedStmts,
    class: ClassNo,
    extent: u32,
    place: Place,
    state: &mut RunState<'_>,
) -> Result<Value, Halt>
    ensures { Runs (statement.object (spend_of x.now.limit) class.0 extent (block_of (x.now, C.means units.now) body.now) place (seen state.old)) result state.new }
{
    tick(x.limit, state)?;
    let made = new_object(class, extent, place, state)?;
    on_object(x, units, body, made, state)
}

/// The object of a variable, or a new one where it is null.
#[inline(never)]
#[tactic(auto, unfolding(qvt_run_rules::specs::Statements::object_in))]
fn object_in<C: Nested>(
    x: &Engine<'_>,
    units: &ReadyUnits<C>,
    body: &TypedStmts,
    name: &str,
    class: ClassNo,
    extent: u32,
    place: Place,
    state: &mut RunState<'_>,
) -> Result<Value, Halt>
    ensures { Runs (statement.object_in (spend_of x.now.limit) name.now (ty.Class class) class.0 extent (block_of (x.now, C.means units.now) body.now) place (seen state.old)) result state.new }
{
    tick(x.limit, state)?;
    let of = Ty::Class(class);
    let object = variable_object(x.alloc, name, &of, class, extent, place, state)?;
    on_object(x, units, body, object, state)
}

/// An object expression of this class and model, on its variable if it has one.
fn object_with<C: Nested>(
    x: &Engine<'_>,
    units: &ReadyUnits<C>,
    body: &TypedStmts,
    variable: &Option<TypedObjectVar>,
    class: ClassNo,
    extent: u32,
    place: Place,
    state: &mut RunState<'_>,
) -> Result<Value, Halt>
    ensures { Runs (by.object_with (setting_of (x.now, C.means units.now)) (by.variable_of (setting_of (x.now, C.means units.now)) variable.now) class.0 extent (block_of (x.now, C.means units.now) body.now) place (seen state.old)) result state.new }
{
    match variable {
        None => object(x, units, body, class, extent, place, state),
        Some(TypedObjectVar::Named { name, .. }) => {
            object_in(x, units, body, name.as_str(), class, extent, place, state)
        }
        Some(TypedObjectVar::ResultVar { .. }) => {
            object_in(x, units, body, RESULT_NAME, class, extent, place, state)
        }
    }
}

/// An object expression by what typing read it as.
fn object_by<C: Nested>(
    x: &Engine<'_>,
    units: &ReadyUnits<C>,
    body: &TypedStmts,
    variable: &Option<TypedObjectVar>,
    note: &Note,
    place: Place,
    state: &mut RunState<'_>,
) -> Result<Value, Halt>
    ensures { Runs (by.object_by (setting_of (x.now, C.means units.now)) (by.variable_of (setting_of (x.now, C.means units.now)) variable.now) note.now.reading (block_of (x.now, C.means units.now) body.now) place (seen state.old)) result state.new }
{
    match &note.reading {
        Reading::Make(class, extent) => {
            object_with(x, units, body, variable, *class, *extent, place, state)
        }
        _ => misfit(place),
    }
}

/// An object expression: on a new object, or on that of its variable. No plain expression is one.
#[inline(never)]
pub fn object_barred<C: Nested>(
    x: &Engine<'_>,
    units: &ReadyUnits<C>,
    body: &TypedStmts,
    variable: &Option<TypedObjectVar>,
    note: &Note,
    place: &Place,
    state: &mut RunState<'_>,
) -> Result<Value, Halt>
    ensures { Runs (barred_in x.now.is_plain place.now (by.object_by (setting_of (x.now, C.means units.now)) (by.variable_of (setting_of (x.now, C.means units.now)) variable.now) note.now.reading (block_of (x.now, C.means units.now) body.now) place.now) (seen state.old)) result state.new }
{
    if x.is_plain {
        return misfit(*place);
    }
    object_by(x, units, body, variable, note, *place, state)
}
