//! A mapping that is reused: it makes no object, opens no key and writes no record.

ghost use Rattle.qvt_run_rules.specs.Locals.{in_own};
ghost use Rattle.qvt_run_rules.specs.Mappings as rule;
ghost use Rattle.qvt_run_rules.specs.State.{caught};
ghost use Rattle.std.specs.Prelude.{◌++◌};
ghost use Rattle.qvt_exec_state.specs.Runs.{Runs, seen};
ghost use Rattle.qvt_exec_candidates.specs.Stage.{mappings_of, rule_of};

use crate::first::init;
use crate::sections::body;
use qvt_base::numbers::{Oid, Place};
use qvt_base::seq::Seq;
use qvt_exec_blocks::nested::Nested;
use qvt_exec_candidates::candidates::is_asked;
use qvt_exec_candidates::mapping::MappingUnit;
use qvt_exec_candidates::results::{making_of, value_of, with_result};
use qvt_exec_candidates::run::Run;
use qvt_exec_phrases::units::ReadyUnits;
use qvt_exec_state::state::RunState;
use qvt_run_data::exit::Halt;
use qvt_run_data::local::Local;
use qvt_value::value::{Value, Values};
use std::mem;

/// Its init section with the shared result: whether a `return` ended it, and the variables after it.
#[tactic(auto, unfolding(qvt_run_rules::specs::Locals::in_own, qvt_exec_candidates::specs::Stage::rule_in), using(qvt_exec_candidates::proofs::Under::own_ok, qvt_exec_candidates::proofs::Under::own_err))]
fn begun<C: Nested>(
    run: &Run,
    units: &ReadyUnits<C>,
    mapping: &MappingUnit<'_>,
    shared: Option<Oid>,
    locals: Seq<Local>,
    state: &mut RunState<'_>,
) -> Result<(bool, Seq<Local>), Halt>
    ensures { Runs (in_own (locals ++ rule.result_local (rule_of (run.now, C.means units.now) mapping.now).result (rule.value_of shared)) (caught (rule_of (run.now, C.means units.now) mapping.now).init) (seen state.old)) result state.new }
{
    let making = making_of(&mapping.node.result);
    let own = with_result(run.alloc, making, value_of(shared), locals)?;
    let outer = mem::replace(&mut state.locals, own);
    let inner = mem::replace(&mut state.inner, None);
    let outcome = init(run, units, mapping, state);
    let locals = mem::replace(&mut state.locals, outer);
    state.inner = inner;
    match outcome {
        Ok(returned) => Ok((returned, locals)),
        Err(halt) => Err(halt),
    }
}

/// A reused mapping with these variables: a `return` in its init section ends it.
#[tactic(auto, unfolding(qvt_run_rules::specs::Mappings::reused))]
pub fn reused<C: Nested>(
    run: &Run,
    units: &ReadyUnits<C>,
    mapping: &MappingUnit<'_>,
    shared: Option<Oid>,
    context: Option<Oid>,
    args: &Values,
    locals: Seq<Local>,
    place: Place,
    state: &mut RunState<'_>,
) -> Result<Value, Halt>
    ensures { Runs (rule.reused (mappings_of (run.now, C.means units.now)) (C.means units.now).calls (rule_of (run.now, C.means units.now) mapping.now) shared context args.now locals place (seen state.old)) result state.new }
{
    if !is_asked(run, units, mapping, &locals, state)? {
        return Ok(Value::Null);
    }
    let (returned, own) = begun(run, units, mapping, shared, locals, state)?;
    if returned {
        return Ok(Value::Null);
    }
    body(
        run, units, mapping, shared, own, context, args, place, state,
    )?;
    Ok(Value::Null)
}
