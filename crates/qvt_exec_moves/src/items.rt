//! The items that a `forEach` goes over.

ghost use Rattle.std.specs.Prelude.{◌≡◌};
ghost use Rattle.std.specs.List.{list_all};
ghost use Rattle.std.specs.Option.{option_copied};
ghost use Rattle.qvt_run_rules.specs.Sources.{items_of};
ghost use Rattle.qvt_run_rules.specs.Statements.{asked_items};
ghost use Rattle.qvt_run_rules.specs.Typed.{has_asked};
ghost use Rattle.qvt_exec_state.specs.Runs.{Runs, seen};

use crate::values::has_asked;
use qvt_base::numbers::Place;
use qvt_exec_state::state::RunState;
use qvt_exec_state::steps::misfit;
use qvt_exec_state::store::Store;
use qvt_exec_words::sources::items_of;
use qvt_run_data::exit::Halt;
use qvt_types_data::ty::Ty;
use qvt_value::value::{Value, Values};
use std::alloc::Global;

fn are_asked(store: &Store, of: Option<&Ty>, values: &[Value]) -> bool
    ensures { result ≡ list_all (has_asked store.now (option_copied of.entry)) values.now }
{
    values.iter().all(|value| has_asked(store, of, value))
}

/// The items of a value, which are of the type of the variable. Those of a collection are handed
/// over.
pub fn asked_items(
    alloc: Global,
    of: Option<&Ty>,
    place: Place,
    value: Value,
    state: &RunState<'_>,
) -> Result<Values, Halt>
    ensures { Runs (asked_items (option_copied of.entry) place (items_of value) (seen state.now)) result state.now }
{
    let items = items_of(alloc, value)?;
    if are_asked(state.store.as_store(), of, items.as_slice()) {
        Ok(items)
    } else {
        misfit(place)
    }
}
