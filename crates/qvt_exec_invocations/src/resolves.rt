//! Resolves that are not late (QVT 1.3, 8.2.1.22).

ghost use Rattle.std.specs.Prelude.{◌≡◌, IfOk};
ghost use Rattle.qvt_exec_phrases.specs.Nodes as nodes;
ghost use Rattle.qvt_exec_resolves.specs.Program.{form_of};
ghost use Rattle.qvt_exec_phrases.specs.Readings as by;
ghost use Rattle.qvt_types_nodes.specs.View.{typed_resolve_view};
ghost use Rattle.qvt_types_nodes.specs.declared.tree.TypedResolveCall.{out-TypedResolveCall};
ghost use Rattle.qvt_exec_state.specs.Runs.{Runs, seen};
ghost use Rattle.qvt_exec_phrases.specs.Means.{barred_in, program_of, setting_of};

use qvt_base::list_fault::ListFault;
use qvt_exec_moves::values::valid;
use qvt_exec_phrases::engine::Engine;
use qvt_exec_phrases::nested::{Nested, program};
use qvt_exec_phrases::units::ReadyUnits;
use qvt_exec_resolves::forms::{form_of, query_of};
use qvt_exec_resolves::sources::sources_of;
use qvt_exec_state::state::RunState;
use qvt_exec_state::steps::{misfit, tick};
use qvt_run_data::exit::Halt;
use qvt_run_data::request::RequestForm;
use qvt_types_nodes::tree::TypedResolveCall;
use qvt_value::value::Value;

/// The resolve as it is written.
fn written<C: Nested>(
    x: &Engine<'_>,
    units: &ReadyUnits<C>,
    node: &TypedResolveCall,
) -> Result<Option<RequestForm>, ListFault>
    ensures { IfOk result (λ form. form ≡ form_of (C.means units.now).program (typed_resolve_view node.now)) }
{
    form_of(x.alloc, program(units), node)
}

/// A resolve without a source.
#[tactic(auto, unfolding(qvt_run_rules::specs::Resolve::resolve_alone))]
fn alone<C: Nested>(
    x: &Engine<'_>,
    units: &ReadyUnits<C>,
    node: &TypedResolveCall,
    state: &mut RunState<'_>,
) -> Result<Value, Halt>
    ensures { Runs (by.resolve_alone (setting_of (x.now, C.means units.now)) (form_of (program_of (x.now, C.means units.now)) (typed_resolve_view node.now)) (out-TypedResolveCall node.now).place (seen state.old)) result state.new }
{
    match written(x, units, node)? {
        None => misfit(node.place),
        Some(form) => {
            tick(x.limit, state)?;
            units.resolve(query_of(form, None), node.place, state)
        }
    }
}

/// A resolve without a source, which no plain expression has.
#[inline(never)]
#[tactic(auto, using(crate::proofs::Marks::stands))]
pub fn resolve_alone<C: Nested>(
    x: &Engine<'_>,
    units: &ReadyUnits<C>,
    node: &TypedResolveCall,
    state: &mut RunState<'_>,
) -> Result<Value, Halt>
    ensures { Runs (barred_in x.now.is_plain (nodes.resolve_mark (typed_resolve_view node.now)).place (by.resolve_alone (setting_of (x.now, C.means units.now)) (form_of (program_of (x.now, C.means units.now)) (typed_resolve_view node.now)) (nodes.resolve_mark (typed_resolve_view node.now)).place) (seen state.old)) result state.new }
{
    if x.is_plain {
        return misfit(node.place);
    }
    alone(x, units, node, state)
}

/// A resolve behind a source.
#[inline(never)]
#[tactic(auto, unfolding(qvt_run_rules::specs::Resolve::resolve_step))]
fn step<C: Nested>(
    x: &Engine<'_>,
    units: &ReadyUnits<C>,
    node: &TypedResolveCall,
    value: Value,
    state: &mut RunState<'_>,
) -> Result<Value, Halt>
    ensures { Runs (by.resolve_step (setting_of (x.now, C.means units.now)) (form_of (program_of (x.now, C.means units.now)) (typed_resolve_view node.now)) (out-TypedResolveCall node.now).place value (seen state.old)) result state.new }
{
    match written(x, units, node)? {
        None => misfit(node.place),
        Some(form) => {
            let source = valid(value, state)?;
            tick(x.limit, state)?;
            let sources = sources_of(x.alloc, node.place, &Some(source), state)?;
            units.resolve(query_of(form, sources), node.place, state)
        }
    }
}

/// A resolve behind a source, which no plain expression has.
#[inline(always)]
#[tactic(auto, using(crate::proofs::Marks::stands))]
pub fn resolve_step<C: Nested>(
    x: &Engine<'_>,
    units: &ReadyUnits<C>,
    node: &TypedResolveCall,
    value: Value,
    state: &mut RunState<'_>,
) -> Result<Value, Halt>
    ensures { Runs (barred_in x.now.is_plain (nodes.resolve_mark (typed_resolve_view node.now)).place (by.resolve_step (setting_of (x.now, C.means units.now)) (form_of (program_of (x.now, C.means units.now)) (typed_resolve_view node.now)) (nodes.resolve_mark (typed_resolve_view node.now)).place value) (seen state.old)) result state.new }
{
    if x.is_plain {
        return misfit(node.place);
    }
    step(x, units, node, value, state)
}
