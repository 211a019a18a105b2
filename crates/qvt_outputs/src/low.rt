//! The lower bounds of what is written.

ghost use Rattle.std.specs.Prelude.{Err, IfOk, option_map};
ghost use Rattle.qvt_json.specs.Steps.{none_of};
ghost use Rattle.qvt_meaning_report.specs.Meaning as meaning;
ghost use Rattle.qvt_outcome.specs.Outcome.{Outcome};
ghost use Rattle.qvt_outcome.specs.Steps.{GivesOrStops, IfFaultOf, IsFaultWith, Stops};
ghost use Rattle.qvt_outputs.specs.Left.{low_outcome};

use qvt_base::list_fault::ListFault;
use qvt_base::text::Text;
use qvt_conform::fault::LowFault;
use qvt_model::id_table::IdTable;
use qvt_outcome::stop::Stop;
use qvt_report::extents::low_in;
use qvt_run_ids::run_ids::RunIds;
use qvt_store::store::Store;
use std::alloc::Global;

/// The end of a run where an object of a written model has too few items for a feature.
fn low_stop(alloc: Global, store: &Store, ids: &IdTable, low: LowFault) -> Result<Stop, ListFault>
    ensures stops { IfOk result (λ stop. Stops {A = Outcome} stop (Err (low_outcome store.now ids.now low))) }
    ensures no_reads { IfOk result (λ stop. IsFaultWith stop (λ file. ⊥)) }
{
    let all = RunIds::new(alloc, store, ids)?;
    let model = Text::from_str(alloc, all.model_name(low.object))?;
    let id = all.id(alloc, low.object)?;
    let feature = Text::from_str(alloc, store.metas().feature_name(low.feature))?;
    Ok(Stop::Low(model, id, feature))
}

/// The first slot of what is written that is under its lower bound ends the run.
pub fn within_bounds(alloc: Global, store: &Store, ids: &IdTable) -> Result<(), Stop>
    ensures gives { GivesOrStops (λ u. u) result (none_of (option_map (low_outcome store.now ids.now) (meaning.low_in store.now))) }
    ensures no_reads { IfFaultOf result (λ file. ⊥) }
{
    match low_in(alloc, store)? {
        Some(low) => Err(low_stop(alloc, store, ids, low)?),
        None => Ok(()),
    }
}
