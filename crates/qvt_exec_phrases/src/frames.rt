//! What a unit begins with: `self` and its parameters.

ghost use Rattle.std.specs.Prelude.{◌≡◌, map};
ghost use Rattle.std.specs.Option.{option_copied};
ghost use Rattle.qvt_run_rules.specs.Calls as rule;
ghost use Rattle.qvt_program_units.specs.Units.{params_of};
ghost use Rattle.qvt_types_nodes.specs.Module.{typed_param_view};
ghost use Rattle.qvt_exec_state.specs.Runs.{Runs, seen};
ghost use Rattle.qvt_exec_phrases.specs.Frames.{bound_after, first_type, other_types};

use crate::values::asked;
use qvt_base::copied::Copied;
use qvt_base::list_fault::ListFault;
use qvt_base::numbers::{Oid, Place};
use qvt_base::seq::Seq;
use qvt_base::text::Text;
use qvt_exec_state::names::SELF_NAME;
use qvt_exec_state::state::RunState;
use qvt_exec_state::steps::misfit;
use qvt_ocl_lists::items::reversed;
use qvt_run_data::exit::Halt;
use qvt_run_data::local::Local;
use qvt_types_data::ty::Ty;
use qvt_types_nodes::module::TypedParam;
use qvt_value::value::{Value, Values};
use std::alloc::Global;

/// The variables of a call, the latest last.
pub type Locals = Seq<Local>;

fn first_type(types: &[Option<Ty>]) -> Option<&Ty>
    ensures { option_copied result ≡ first_type types.now }
{
    match types {
        [] => None,
        [first, ..] => first.as_ref(),
    }
}

fn other_types(types: &[Option<Ty>]) -> &[Option<Ty>]
    ensures { result.now ≡ other_types types.now }
{
    match types {
        [] => &[],
        [_, others @ ..] => others,
    }
}

/// Puts a variable last to which nothing is assigned.
fn push_fixed(
    alloc: Global,
    locals: &mut Locals,
    name: &Text,
    value: Value,
) -> Result<(), ListFault>
    ensures { OnOk result (locals.new ≡ locals.old ++ fixed name.now value ∷ []) }
{
    locals.push(Local {
        name: name.copy(alloc)?,
        asked: None,
        value,
    })
}

ghost use Rattle.std.specs.Prelude.{◌++◌, ◌∷◌, [], reverse, MatchOption, OnOk};
ghost use Rattle.qvt_run_rules.specs.Locals.{fixed};

/// Takes the first of arguments that stand the other way round.
#[tactic(auto, using(crate::proofs::Bound::first_again))]
fn next_arg(left: &mut Values) -> Option<Value>
    ensures { MatchOption result (reverse left.old ≡ []) (λ arg. reverse left.old ≡ arg ∷ reverse left.new) }
{
    left.pop()
}

/// The parameters after these variables.
#[tactic(auto, using(crate::proofs::Bound::params_next, crate::proofs::Bound::back_again))]
fn bound_onto(
    alloc: Global,
    before: Locals,
    params: &[TypedParam],
    types: &[Option<Ty>],
    args: Values,
    place: Place,
    state: &RunState<'_>,
) -> Result<Locals, Halt>
    ensures { Runs (bound_after before (params_of (map typed_param_view params.now) types.now) args place (seen state.now)) result state.now }
{
    let mut left = reversed(args);
    let mut locals = before;
    let mut types = types;
    for param in params {
        let Some(arg) = next_arg(&mut left) else {
            return misfit(place);
        };
        let value = asked(first_type(types), place, arg, state)?;
        push_fixed(alloc, &mut locals, &param.name, value)?;
        types = other_types(types);
    }
    if !left.is_empty() {
        return misfit(place);
    }
    Ok(locals)
}

/// The parameters with the arguments of a call, which are of their types.
#[tactic(auto, using(crate::proofs::Bound::after_none))]
pub fn bound(
    alloc: Global,
    params: &[TypedParam],
    types: &[Option<Ty>],
    args: Values,
    place: Place,
    state: &RunState<'_>,
) -> Result<Locals, Halt>
    ensures { Runs (rule.bound (params_of (map typed_param_view params.now) types.now) args place (seen state.now)) result state.now }
{
    bound_onto(alloc, Seq::new(alloc), params, types, args, place, state)
}

/// `self`, if the unit has a context.
pub fn self_of(
    alloc: Global,
    has_context: bool,
    object: Option<Oid>,
    place: Place,
    state: &RunState<'_>,
) -> Result<Locals, Halt>
    ensures { Runs (rule.self_of has_context object place (seen state.now)) result state.now }
{
    let mut locals = Seq::new(alloc);
    if !has_context {
        return Ok(locals);
    }
    match object {
        None => misfit(place),
        Some(object) => {
            let name = Text::from_str(alloc, SELF_NAME)?;
            push_fixed(alloc, &mut locals, &name, Value::Obj(object))?;
            Ok(locals)
        }
    }
}

/// `self`, if the unit has a context, and the parameters with the arguments of a call.
#[tactic(auto, using(crate::proofs::Bound::bound_is), unfolding(qvt_run_rules::specs::Calls::frame))]
pub fn frame(
    alloc: Global,
    has_context: bool,
    params: &[TypedParam],
    types: &[Option<Ty>],
    object: Option<Oid>,
    args: Values,
    place: Place,
    state: &RunState<'_>,
) -> Result<Locals, Halt>
    ensures { Runs (rule.frame has_context (params_of (map typed_param_view params.now) types.now) object args place (seen state.now)) result state.now }
{
    let me = self_of(alloc, has_context, object, place, state)?;
    bound_onto(alloc, me, params, types, args, place, state)
}
