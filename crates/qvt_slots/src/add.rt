//! Objects added to the cells of a store.

ghost use Rattle.std.specs.Prelude.{◌≡◌, ◌<◌, ◌++◌, ◌∷◌, [], length, map, slice_set, slice_index_or, IfOk, IfErr, OnOk, OnErr};

use crate::cell::Cell;
use crate::fault::StoreFault;
use qvt_base::list_fault::ListFault;
use qvt_base::lists::OidList;
use qvt_base::numbers::{FeatureNo, Oid};
use qvt_base::seq::Seq;
use qvt_value::value::Values;
use std::alloc::Global;

/// An empty list for each feature.
pub fn empty_slots(alloc: Global, features: &[FeatureNo]) -> Result<Vec<Values>, ListFault>
    ensures { IfOk result (λ slots. slots.items ≡ map (λ _. []) features.now) }
{
    let mut slots = Seq::new(alloc);
    for _feature in features {
        slots.push(Seq::new(alloc))?;
    }
    Ok(slots.into_vec())
}

/// Puts the object last in the list of an extent.
fn add_member(members: &mut Vec<OidList>, extent: u32, object: Oid) -> Result<(), ListFault>
    requires { extent < length members.old.items }
    ensures ok { OnOk result (members.new.items ≡ slice_set members.old.items extent (slice_index_or members.old.items extent [] ++ object ∷ [])) }
    ensures err { OnErr result (members.new.items ≡ members.old.items) }
{
    let list = &mut members[extent as usize];
    list.push(object)
}

/// Puts the cell last, and its object last in the list of its extent.
pub fn add_cell(
    cells: &mut Vec<Cell>,
    members: &mut Vec<OidList>,
    cell: Cell,
    object: Oid,
) -> Result<(), StoreFault>
    requires { cell.extent < length members.old.items }
    ensures cells { OnOk result (cells.new.items ≡ cells.old.items ++ cell ∷ []) }
    ensures members { OnOk result (members.new.items ≡ slice_set members.old.items cell.extent (slice_index_or members.old.items cell.extent [] ++ object ∷ [])) }
    ensures same_cells { OnErr result (cells.new.items ≡ cells.old.items) }
    ensures same_members { OnErr result (members.new.items ≡ members.old.items) }
    ensures refused { IfErr result (λ fault. fault ≡ StoreFault.NoMemory) }
{
    let extent = cell.extent;
    let count = cells.len();
    cells.push(cell)?;
    if add_member(members, extent, object).is_err() {
        cells.truncate(count);
        return Err(StoreFault::NoMemory);
    }
    Ok(())
}
