//! Calls of mappings, in each way.

ghost use Rattle.std.specs.Prelude.{◌≡◌};
ghost use Rattle.qvt_run_rules.specs.Mappings as rule;
ghost use Rattle.qvt_exec_state.specs.Runs.{Runs, seen};
ghost use Rattle.qvt_exec_candidates.specs.Begun.{begun_view};
ghost use Rattle.qvt_exec_candidates.specs.Stage.{mappings_of, rule_of};

use crate::once::once;
use crate::reused::reused;
use crate::sections::body;
use qvt_base::numbers::{Oid, Place};
use qvt_base::seq::Seq;
use qvt_exec_blocks::nested::Nested;
use qvt_exec_blocks::units::named_by;
use qvt_exec_candidates::begun::{Begun, Made};
use qvt_exec_candidates::candidates::{dispatch, is_asked};
use qvt_exec_candidates::faults::faulted;
use qvt_exec_candidates::frames::frame_of;
use qvt_exec_candidates::keys::key_of;
use qvt_exec_candidates::mapping::MappingUnit;
use qvt_exec_candidates::results::value_of;
use qvt_exec_candidates::run::Run;
use qvt_exec_phrases::units::ReadyUnits;
use qvt_exec_state::state::RunState;
use qvt_run_data::callee::Way;
use qvt_run_data::exit::Halt;
use qvt_run_data::fault::RunFault;
use qvt_run_data::local::Local;
use qvt_value::value::{Value, Values};
use std::alloc::Global;
use std::mem;

/// The steps behind the record, which only a new result has.
fn goes_on<C: Nested>(
    run: &Run,
    units: &ReadyUnits<C>,
    mapping: &MappingUnit<'_>,
    begun: Begun,
    context: Option<Oid>,
    args: &Values,
    place: Place,
    state: &mut RunState<'_>,
) -> Result<Value, Halt>
    ensures { Runs (rule.goes_on (mappings_of (run.now, C.means units.now)) (C.means units.now).calls (rule_of (run.now, C.means units.now) mapping.now) context args.now place (begun_view begun) (seen state.old)) result state.new }
{
    match begun.made {
        Made::Known(outcome) => Ok(value_of(outcome)),
        Made::Ended(outcome) => Ok(value_of(outcome)),
        Made::New(outcome) => {
            let locals = locals_of(run.alloc, begun);
            body(
                run, units, mapping, outcome, locals, context, args, place, state,
            )?;
            Ok(value_of(outcome))
        }
    }
}

/// The variables after the init section. It takes no memory.
fn locals_of(alloc: Global, begun: Begun) -> Seq<Local>
    ensures { result ≡ begun.locals }
{
    let mut begun = begun;
    mem::replace(&mut begun.locals, Seq::new(alloc))
}

/// A mapping that is no dispatcher, with these variables.
#[tactic(auto, unfolding(qvt_run_rules::specs::Mappings::made, qvt_exec_candidates::specs::Stage::rule_in))]
fn made<C: Nested>(
    run: &Run,
    units: &ReadyUnits<C>,
    mapping: &MappingUnit<'_>,
    context: Option<Oid>,
    args: &Values,
    locals: Seq<Local>,
    place: Place,
    state: &mut RunState<'_>,
) -> Result<Value, Halt>
    ensures { Runs (rule.made (mappings_of (run.now, C.means units.now)) (C.means units.now).calls (rule_of (run.now, C.means units.now) mapping.now) context args.now locals place (seen state.old)) result state.new }
{
    let key = key_of(run.alloc, mapping.number, context, args)?;
    let begun = once(run, units, mapping, &key, locals, place, state)?;
    goes_on(run, units, mapping, begun, context, args, place, state)
}

/// A mapping whose `when` is true, with these variables. A dispatcher writes no record.
#[tactic(auto, unfolding(qvt_run_rules::specs::Mappings::chosen, qvt_exec_candidates::specs::Stage::rule_in), using(crate::proofs::Lists::dispatched))]
fn chosen<C: Nested>(
    run: &Run,
    units: &ReadyUnits<C>,
    mapping: &MappingUnit<'_>,
    context: Option<Oid>,
    args: &Values,
    locals: Seq<Local>,
    place: Place,
    state: &mut RunState<'_>,
) -> Result<Value, Halt>
    ensures { Runs (rule.chosen (mappings_of (run.now, C.means units.now)) (C.means units.now).calls (rule_of (run.now, C.means units.now) mapping.now) context args.now locals place (seen state.old)) result state.new }
{
    let numbers = named_by(run.alloc, mapping.node.disjuncts.as_slice())?;
    let candidates = numbers.as_slice();
    match candidates {
        [] => made(run, units, mapping, context, args, locals, place, state),
        [_first, ..] => dispatch(run, units, candidates, context, args, place, state),
    }
}

/// What a call gives of a mapping whose `when` is false.
fn refused(strict: bool, place: Place, state: &RunState<'_>) -> Result<Value, Halt>
    ensures { Runs (rule.refused strict place (seen state.now)) result state.now }
{
    if strict {
        faulted(RunFault::WhenFailed, place)
    } else {
        Ok(Value::Null)
    }
}

/// A mapping that is called by a `map`, or by an `xmap` where `strict` is true.
#[tactic(auto, unfolding(qvt_run_rules::specs::Mappings::called))]
fn called<C: Nested>(
    run: &Run,
    units: &ReadyUnits<C>,
    mapping: &MappingUnit<'_>,
    strict: bool,
    context: Option<Oid>,
    args: &Values,
    locals: Seq<Local>,
    place: Place,
    state: &mut RunState<'_>,
) -> Result<Value, Halt>
    ensures { Runs (rule.called (mappings_of (run.now, C.means units.now)) (C.means units.now).calls (rule_of (run.now, C.means units.now) mapping.now) strict context args.now locals place (seen state.old)) result state.new }
{
    if is_asked(run, units, mapping, &locals, state)? {
        chosen(run, units, mapping, context, args, locals, place, state)
    } else {
        refused(strict, place, state)
    }
}

fn by_way<C: Nested>(
    run: &Run,
    units: &ReadyUnits<C>,
    mapping: &MappingUnit<'_>,
    way: Way,
    context: Option<Oid>,
    args: &Values,
    locals: Seq<Local>,
    place: Place,
    state: &mut RunState<'_>,
) -> Result<Value, Halt>
    ensures { Runs (rule.by_way (mappings_of (run.now, C.means units.now)) (C.means units.now).calls (rule_of (run.now, C.means units.now) mapping.now) way context args.now place locals (seen state.old)) result state.new }
{
    match way {
        Way::Called(strict) => {
            called(
                run, units, mapping, strict, context, args, locals, place, state,
            )
        }
        Way::Chosen => chosen(run, units, mapping, context, args, locals, place, state),
        Way::Reused(shared) => {
            reused(
                run, units, mapping, shared, context, args, locals, place, state,
            )
        }
    }
}

/// A mapping on its context, with these arguments.
#[tactic(auto, unfolding(qvt_run_rules::specs::Mappings::mapping))]
pub fn mapping<C: Nested>(
    run: &Run,
    units: &ReadyUnits<C>,
    mapping: &MappingUnit<'_>,
    way: Way,
    context: Option<Oid>,
    args: &Values,
    place: Place,
    state: &mut RunState<'_>,
) -> Result<Value, Halt>
    ensures { Runs (rule.mapping (mappings_of (run.now, C.means units.now)) (C.means units.now).calls (rule_of (run.now, C.means units.now) mapping.now) way context args.now place (seen state.old)) result state.new }
{
    let locals = frame_of(run, units, mapping, context, args, place, state)?;
    by_way(
        run, units, mapping, way, context, args, locals, place, state,
    )
}
