//! The sections of a mapping that has its result, and the mappings that it reuses.

ghost use Rattle.qvt_meaning.specs.Nodes.{mappings_named};
ghost use Rattle.qvt_meaning.specs.Program.{numbers};
ghost use Rattle.qvt_run_rules.specs.Mappings as rule;
ghost use Rattle.qvt_exec_state.specs.Runs.{Runs, seen};
ghost use Rattle.qvt_exec_candidates.specs.Framed.{sections_inside};
ghost use Rattle.qvt_exec_candidates.specs.Stage.{mappings_of, rule_of};

use crate::phrases::section_returns;
use qvt_base::copied::Copied;
use qvt_base::numbers::{Oid, Place};
use qvt_base::seq::Seq;
use qvt_exec_blocks::nested::Nested;
use qvt_exec_blocks::units::named_by;
use qvt_exec_candidates::mapping::MappingUnit;
use qvt_exec_candidates::run::Run;
use qvt_exec_phrases::units::{ReadyUnits, UnitCalls};
use qvt_exec_state::state::RunState;
use qvt_run_data::callee::{Callee, Way};
use qvt_run_data::exit::Halt;
use qvt_run_data::local::Local;
use qvt_types_nodes::types::TypedPathTree;
use qvt_value::value::Values;
use std::mem;

/// Population and end, each up to a `return`.
#[tactic(auto, unfolding(qvt_exec_candidates::specs::Stage::rule_in))]
fn sections_inside<C: Nested>(
    run: &Run,
    units: &ReadyUnits<C>,
    mapping: &MappingUnit<'_>,
    state: &mut RunState<'_>,
) -> Result<(), Halt>
    ensures { Runs (sections_inside (rule_of (run.now, C.means units.now) mapping.now) (seen state.old)) result state.new }
{
    let population = mapping.node.population.as_slice();
    let _returned = section_returns(run, units, population, state)?;
    let finish = mapping.node.finish.as_slice();
    let _returned = section_returns(run, units, finish, state)?;
    Ok(())
}

/// Population and end, over the variables of the init section.
#[tactic(auto, unfolding(qvt_run_rules::specs::Mappings::sections, qvt_run_rules::specs::Locals::in_frame), using(qvt_exec_candidates::proofs::Under::under_runs))]
fn sections<C: Nested>(
    run: &Run,
    units: &ReadyUnits<C>,
    mapping: &MappingUnit<'_>,
    locals: Seq<Local>,
    state: &mut RunState<'_>,
) -> Result<(), Halt>
    ensures { Runs (rule.sections (rule_of (run.now, C.means units.now) mapping.now) locals (seen state.old)) result state.new }
{
    let outer = mem::replace(&mut state.locals, locals);
    let inner = mem::replace(&mut state.inner, None);
    let done = sections_inside(run, units, mapping, state);
    state.locals = outer;
    state.inner = inner;
    done
}

/// The mappings of these numbers are called one after another, with the shared result.
fn reuse<C: UnitCalls>(
    run: &Run,
    units: &ReadyUnits<C>,
    numbers: &[u32],
    shared: Option<Oid>,
    context: Option<Oid>,
    args: &Values,
    place: Place,
    state: &mut RunState<'_>,
) -> Result<(), Halt>
    ensures { Runs (rule.reuse (mappings_of (run.now, C.means units.now)) (C.means units.now).calls numbers.now shared context args.now place (seen state.old)) result state.new }
{
    for number in numbers {
        let values = args.copy(run.alloc)?;
        let callee = Callee::MappingCall(*number, Way::Reused(shared), context);
        let _value = units.call(callee, values, place, state)?;
    }
    Ok(())
}

/// The same of the mappings that a list names.
fn reuse_named<C: UnitCalls>(
    run: &Run,
    units: &ReadyUnits<C>,
    paths: &[TypedPathTree],
    shared: Option<Oid>,
    context: Option<Oid>,
    args: &Values,
    place: Place,
    state: &mut RunState<'_>,
) -> Result<(), Halt>
    ensures { Runs (rule.reuse (mappings_of (run.now, C.means units.now)) (C.means units.now).calls (numbers (mappings_named paths.now)) shared context args.now place (seen state.old)) result state.new }
{
    let numbers = named_by(run.alloc, paths)?;
    reuse(
        run,
        units,
        numbers.as_slice(),
        shared,
        context,
        args,
        place,
        state,
    )
}

/// The mappings that are inherited, population and end, and the mappings that are merged.
#[tactic(auto, unfolding(qvt_run_rules::specs::Mappings::body, qvt_exec_candidates::specs::Stage::rule_in))]
pub fn body<C: Nested>(
    run: &Run,
    units: &ReadyUnits<C>,
    mapping: &MappingUnit<'_>,
    shared: Option<Oid>,
    locals: Seq<Local>,
    context: Option<Oid>,
    args: &Values,
    place: Place,
    state: &mut RunState<'_>,
) -> Result<(), Halt>
    ensures { Runs (rule.body (mappings_of (run.now, C.means units.now)) (C.means units.now).calls (rule_of (run.now, C.means units.now) mapping.now) shared locals context args.now place (seen state.old)) result state.new }
{
    let inherited = mapping.node.inherits.as_slice();
    reuse_named(run, units, inherited, shared, context, args, place, state)?;
    sections(run, units, mapping, locals, state)?;
    let merged = mapping.node.merges.as_slice();
    reuse_named(run, units, merged, shared, context, args, place, state)
}
