//! What a late assignment keeps (QVT 1.3, 8.1.10).

ghost use Rattle.std.specs.Prelude.{◌≡◌, map, IfOk, OnErr};
ghost use Rattle.qvt_metas.specs.Descends.{is_class_kind};
ghost use Rattle.qvt_run_rules.specs.Locals.{var_of};
ghost use Rattle.qvt_run_rules.specs.Resolve as rule;
ghost use Rattle.qvt_run_rules.specs.State.{look};
ghost use Rattle.qvt_run_rules.specs.Store.{op_of};
ghost use Rattle.qvt_exec_state.specs.Runs.{Runs, seen};
ghost use Rattle.qvt_exec_resolves.specs.Late.{kept};

use qvt_base::copied::Copied;
use qvt_base::list_fault::ListFault;
use qvt_base::numbers::{ClassNo, FeatureNo, Oid, Place};
use qvt_base::seq::Seq;
use qvt_exec_state::state::RunState;
use qvt_exec_state::steps::misfit;
use qvt_metas::info::TypeKind;
use qvt_metas::metas::Metas;
use qvt_run_data::exit::Halt;
use qvt_run_data::late::LateWrite;
use qvt_run_data::local::Local;
use qvt_run_data::request::{Query, Request};
use qvt_store::op::SetOp;
use qvt_value::value::{Var, Vars};
use std::alloc::Global;

/// Whether objects of the class are of the type.
fn is_class_kind(metas: &Metas, class: ClassNo, kind: TypeKind) -> bool
    ensures { result ≡ is_class_kind metas.now class.0 kind }
{
    match kind {
        TypeKind::Bool => false,
        TypeKind::Int => false,
        TypeKind::Str => false,
        TypeKind::Enum(_, _) => false,
        TypeKind::Class(other) => metas.descends(class, other),
    }
}

/// A late resolve looks for a class that is of the slot's type, else a misfit.
pub fn if_fits(
    feature: FeatureNo,
    class: ClassNo,
    place: Place,
    state: &RunState<'_>,
) -> Result<(), Halt>
    ensures { Runs (look (rule.if_fits feature.0 class.0) place (seen state.now)) result state.now }
{
    let metas = state.store.as_store().metas();
    if is_class_kind(metas, class, metas.shape(feature).kind) {
        Ok(())
    } else {
        misfit(place)
    }
}

fn op_of(adds: bool) -> SetOp
    ensures { result ≡ op_of adds }
{
    if adds { SetOp::Add } else { SetOp::Put }
}

fn var_of(alloc: Global, local: &Local) -> Result<Var, ListFault>
    ensures { IfOk result (λ var. var ≡ var_of local.now) }
{
    Ok(Var {
        name: local.name.copy(alloc)?,
        value: local.value.copy(alloc)?,
    })
}

/// The variables in scope as they are.
fn vars_of(alloc: Global, locals: &[Local]) -> Result<Vars, ListFault>
    ensures { IfOk result (λ vars. vars ≡ map var_of locals.now) }
{
    let mut vars = Seq::new(alloc);
    for local in locals {
        vars.push(var_of(alloc, local)?)?;
    }
    Ok(vars)
}

/// The request of a query. It takes no memory.
fn request_of(query: Query) -> Request
    ensures { result ≡ query.request }
{
    let mut query = query;
    let within = query.request.within.take();
    let sources = query.request.sources.take();
    Request {
        inverse: query.request.inverse,
        within,
        sources,
        class: query.request.class,
    }
}

/// What is kept of a late assignment with its sign at this place.
pub fn late_write(
    alloc: Global,
    object: Oid,
    feature: FeatureNo,
    adds: bool,
    query: Query,
    place: Place,
    state: &RunState<'_>,
) -> Result<LateWrite, ListFault>
    ensures { IfOk result (λ write. write ≡ rule.late_write object feature.0 adds query place (seen state.now)) }
{
    let vars = vars_of(alloc, state.locals.as_slice())?;
    let one = query.one;
    let condition = query.condition;
    Ok(LateWrite {
        object,
        feature,
        op: op_of(adds),
        request: request_of(query),
        one,
        condition,
        vars,
        place,
    })
}

/// Keeps a late assignment: an entry more. A refused call changes nothing.
pub fn entered(
    alloc: Global,
    object: Oid,
    feature: FeatureNo,
    adds: bool,
    query: Query,
    place: Place,
    state: &mut RunState<'_>,
) -> Result<(), Halt>
    ensures ok { Runs (rule.entered kept object feature.0 adds query place (seen state.old)) result state.new }
    ensures err { OnErr result (state.new ≡ state.old) }
{
    let write = late_write(alloc, object, feature, adds, query, place, state)?;
    state.entries.push(write)?;
    Ok(())
}
