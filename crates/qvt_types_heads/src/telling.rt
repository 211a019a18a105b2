//! What is told of the heads of units.

ghost use Rattle.std.specs.Prelude.{◌≡◌, ◌++◌, map, OnOk};
ghost use Rattle.std.specs.List.{flat_map};
ghost use Rattle.qvt_tree_types.specs.Module.{module_view, unit_view};
ghost use Rattle.qvt_types_context.specs.Seen.{heads_seen};
ghost use Rattle.qvt_types_lists.specs.Units.{head_told};
ghost use Rattle.qvt_types_heads.specs.Heads as heads_words;

use qvt_base::list_fault::ListFault;
use qvt_tree_types::module::{Module, Unit};
use qvt_types_context::context::Heads;
use qvt_types_context::telling::{HeadScope as UnitHeads, tell_head};
use qvt_types_lists::same::{tell_main, tell_same};
use qvt_types_lists::telling::{Listing, tell_lists};
use qvt_types_overrides::overrides::tell_overrides;
use qvt_types_paths::told::RefusalList;
use std::alloc::Global;

/// Tells what is wrong with the heads of units one by one.
fn tell_each(
    alloc: Global,
    heads: &UnitHeads<'_>,
    units: &[Unit],
    log: &mut RefusalList,
) -> Result<(), ListFault>
    ensures { OnOk result (log.new ≡ log.old ++ flat_map (head_told heads.now.given.now heads.now.metas.now heads.now.names.now heads.now.models.now) (map unit_view units.now)) }
{
    for unit in units {
        tell_head(alloc, heads, unit, log)?;
    }
    Ok(())
}

/// Tells what is wrong with the units: with the head of each, with what stands twice, with overrides, with the lists of mappings, and
/// that there is no `main`.
#[tactic(auto, unfolding(crate::specs::Heads::units_told))]
pub fn tell_units(
    alloc: Global,
    heads: &Heads<'_>,
    module: &Module,
    log: &mut RefusalList,
) -> Result<(), ListFault>
    ensures { OnOk result (log.new ≡ log.old ++ heads_words.units_told (heads_seen heads.now) (module_view «module».now)) }
{
    let metas = heads.units.metas();
    let names = heads.units.names();
    let each = UnitHeads {
        given: heads.given,
        metas,
        names: heads.types,
        models: heads.models,
    };
    tell_each(alloc, &each, module.units.as_slice(), log)?;
    tell_same(names, log)?;
    tell_overrides(alloc, metas, names.signatures(), log)?;
    let listing = Listing {
        given: heads.given,
        metas,
        names: heads.types,
        units: names,
    };
    tell_lists(alloc, &listing, module.units.as_slice(), log)?;
    tell_main(names, module.end, log)
}
