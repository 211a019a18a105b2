//! Where each object stands in its extent.

ghost use Rattle.std.specs.Prelude.{◌≡◌, IfOk, OnOk, map};
ghost use Rattle.qvt_run_ids.specs.Places.{count_at, no_counts, places_of, raised};

use qvt_base::list_fault::ListFault;
use qvt_base::numbers::Oid;
use qvt_base::seq::Seq;
use qvt_store::extent::Extent;
use qvt_store::store::Store;
use std::alloc::Global;

/// No object of any extent.
fn no_counts(alloc: Global, extents: &[Extent]) -> Result<Seq<u32>, ListFault>
    ensures { IfOk result (λ counts. counts ≡ map (λ _. 0) extents.now) }
{
    let mut counts = Seq::new(alloc);
    for _extent in extents {
        counts.push(0)?;
    }
    Ok(counts)
}

/// The place of the next object of the extent, which is counted.
fn next_place(counts: &mut Seq<u32>, extent: u32) -> Result<u32, ListFault>
    ensures place { IfOk result (λ place. place ≡ count_at counts.old extent) }
    ensures counts { OnOk result (counts.new ≡ raised counts.old extent) }
{
    let at = extent as usize;
    if at >= counts.len() {
        return Ok(0);
    }
    let place = counts.as_slice()[at];
    let Some(next) = place.checked_add(1) else {
        return Err(ListFault::NoMemory);
    };
    counts.set(at, next);
    Ok(place)
}

/// The place of each object in its extent, from 0.
#[tactic(auto, using(crate::proofs::Placed::next_counted), unfolding(crate::specs::Places::places_of))]
pub fn places_of(alloc: Global, store: &Store) -> Result<Seq<u32>, ListFault>
    ensures { IfOk result (λ places. places ≡ places_of store.now) }
{
    let mut counts = no_counts(alloc, store.extents().as_slice())?;
    let mut places = Seq::new(alloc);
    for number in 0..store.len() {
        let extent = store.extent_of(Oid(number));
        let place = next_place(&mut counts, extent)?;
        places.push(place)?;
    }
    Ok(places)
}
