//! What typing tells and notes of a transformation.

ghost use Rattle.std.specs.Prelude.{◌≡◌, IfOk};
ghost use Rattle.qvt_tree_types.specs.Module.{module_view};
ghost use Rattle.qvt_types_program.specs.Seen.{heads_seen};
ghost use Rattle.qvt_types_states.specs.Does.{GivesAndLeaves};
ghost use Rattle.qvt_types_program.specs.Accepts as accepts;

use qvt_base::list_fault::ListFault;
use qvt_tree_types::module::Module;
use qvt_types_bodies::context::Heads;
use qvt_types_bodies::units::all_units;
use qvt_types_paths::told::RefusalList;
use qvt_types_states::state::TypingState;
use qvt_types_states::steps::writes_nothing;
use std::alloc::Global;

/// Writes a note on which nothing is written for each of the nodes.
fn bare_notes<T>(nodes: &[T], state: &mut TypingState) -> Result<(), ListFault>
    ensures { GivesAndLeaves (accepts.bare_notes nodes.now state.old) result state.new }
{
    for _node in nodes {
        writes_nothing(state)?;
    }
    Ok(())
}

/// Judges all nodes, in the order of the text.
fn whole(
    alloc: Global,
    heads: &Heads<'_>,
    module: &Module,
    state: &mut TypingState,
) -> Result<(), ListFault>
    ensures { GivesAndLeaves (accepts.whole (heads_seen heads.now) (module_view «module».now) state.old) result state.new }
{
    bare_notes(module.model_types.as_slice(), state)?;
    bare_notes(module.params.as_slice(), state)?;
    all_units(alloc, heads, module.units.as_slice(), state)
}

/// All that is told and noted of a transformation of whose heads this is told.
pub fn judged(
    alloc: Global,
    heads: &Heads<'_>,
    module: &Module,
    told: RefusalList,
) -> Result<TypingState, ListFault>
    ensures { IfOk result (λ s. accepts.whole (heads_seen heads.now) (module_view «module».now) (accepts.start told) ≡ (tt, s)) }
{
    let mut state = TypingState::new(alloc);
    state.log = told;
    whole(alloc, heads, module, &mut state)?;
    Ok(state)
}
