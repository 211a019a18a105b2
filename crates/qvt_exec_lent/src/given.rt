//! What an operation gives of its source, which is lent to it where it is a collection.

ghost use Rattle.std.specs.Prelude.{◌≡◌, map, IfOk};
ghost use Rattle.qvt_types_nodes.specs.View.{typed_step_view, typed_steps_of};
ghost use Rattle.qvt_value.specs.Items.{stands_for};
ghost use Rattle.qvt_run_rules.specs.Cost.{count};
ghost use Rattle.qvt_run_rules.specs.Expressions as rule;
ghost use Rattle.qvt_run_rules.specs.Sources.{before_arrow};
ghost use Rattle.qvt_exec_types.specs.Program.{program_view};
ghost use Rattle.qvt_exec_quiet.specs.Lent as lent;
ghost use Rattle.qvt_exec_state.specs.Runs.{Runs, seen};

use crate::sources::reading;
use qvt_base::list_fault::ListFault;
use qvt_base::numbers::Place;
use qvt_exec_quiet::lent::{Lent, steps_before};
use qvt_exec_state::state::RunState;
use qvt_exec_state::steps::misfit;
use qvt_exec_types::before::kind_before;
use qvt_exec_types::program::Program;
use qvt_exec_words::sources::before_arrow;
use qvt_ocl::apply::apply_lent;
use qvt_ocl::fault::OclFault;
use qvt_ocl_lists::items::is_null;
use qvt_ocl_words::op::Op;
use qvt_run_data::exit::Halt;
use qvt_types_data::ty::Ty;
use qvt_types_nodes::tree::TypedStep;
use qvt_value::items::Items;
use qvt_value::value::{Kind, Value};
use std::alloc::Global;

/// What an operation gives of a source that is lent.
fn applied_lent(
    alloc: Global,
    op: Op,
    args: &[Value],
    place: Place,
    source: &Items<'_>,
    state: &RunState<'_>,
) -> Result<Value, Halt>
    ensures { Runs (rule.applied count op args.now place (stands_for source.now) (seen state.now)) result state.now }
{
    match apply_lent(alloc, op, place, source, args) {
        Ok(value) => Ok(value),
        Err(OclFault::TypeFault) => misfit(place),
        Err(OclFault::NoMemory) => Err(Halt::NoMemory),
    }
}

/// The kind of what the arrow goes over, where that is null.
#[tactic(auto, using(crate::proofs::Before::kind_is))]
fn kind_for(
    alloc: Global,
    program: &Program,
    ty: &Option<Ty>,
    steps: &[TypedStep],
    l: &Lent<'_>,
) -> Result<Kind, ListFault>
    ensures { IfOk result (λ kind. kind ≡ lent.kind_for (program_view program.now) ty.now (typed_steps_of (map typed_step_view steps.now)) (lent.lent_view l.now)) }
{
    let kind = kind_before(alloc, program, ty, steps, steps_before(&l.source))?;
    Ok(kind)
}

/// What an arrow goes over that is a value. The type before the step is asked for where that is null alone.
fn over_value(
    alloc: Global,
    program: &Program,
    ty: &Option<Ty>,
    steps: &[TypedStep],
    l: &Lent<'_>,
    value: Value,
) -> Result<Value, ListFault>
    ensures { IfOk result (λ source. source ≡ before_arrow l.now.wrap (lent.kind_for (program_view program.now) ty.now (typed_steps_of (map typed_step_view steps.now)) (lent.lent_view l.now)) value) }
{
    let kind = if is_null(&value) {
        kind_for(alloc, program, ty, steps, l)?
    } else {
        Kind::Set
    };
    before_arrow(alloc, l.wrap, kind, value)
}

/// What an arrow goes over. A collection stays lent.
#[tactic(auto, using(crate::proofs::Arrows::as_it_stands))]
fn over<'v>(
    alloc: Global,
    program: &Program,
    ty: &Option<Ty>,
    steps: &[TypedStep],
    l: &Lent<'_>,
    items: Items<'v>,
) -> Result<Items<'v>, ListFault>
    ensures { IfOk result (λ source. stands_for source ≡ before_arrow l.now.wrap (lent.kind_for (program_view program.now) ty.now (typed_steps_of (map typed_step_view steps.now)) (lent.lent_view l.now)) (stands_for items.entry)) }
{
    if !l.wrap {
        if let Items::Lent(kind, list) = &items {
            return Ok(Items::Lent(*kind, list));
        }
    }
    let value = items.into_value(alloc)?;
    Ok(Items::Made(over_value(alloc, program, ty, steps, l, value)?))
}

/// What the operation gives of its source, once its arguments are there.
#[inline(never)]
#[tactic(auto, unfolding(qvt_exec_quiet::specs::Lent::given_of))]
pub fn given_of(
    alloc: Global,
    program: &Program,
    ty: &Option<Ty>,
    steps: &[TypedStep],
    l: &Lent<'_>,
    args: &[Value],
    state: &RunState<'_>,
) -> Result<Value, Halt>
    ensures { Runs (lent.given_of (lent.kind_for (program_view program.now) ty.now (typed_steps_of (map typed_step_view steps.now)) (lent.lent_view l.now)) (lent.lent_view l.now) args.now (seen state.now)) result state.now }
{
    let items = reading(alloc, &l.source, state)?;
    let source = over(alloc, program, ty, steps, l, items)?;
    applied_lent(alloc, l.op, args, l.at, &source, state)
}
