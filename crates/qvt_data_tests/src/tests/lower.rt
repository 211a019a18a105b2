//! Slots that hold fewer items than their lower bounds.

use super::script::{step, store_of};
use qvt_conform::low::lower_bounds;
use qvt_store::store::Store;
use std::test::Fail;

const PLAYERS: &str =
    "{\"classes\":[{\"features\":[{\"lower\":1,\"name\":\"lead\",\"type\":\"P\"},{\"name\":\"nick\",\"type\":\"String\"},{\"lower\":2,\"name\":\"marks\",\"type\":\"Integer\",\"upper\":\"*\"}],\"name\":\"P\"}],\"name\":\"M\"}";

/// The first object of the extent with too few items, and the name of the first such feature.
fn lacking(store: &Store, extent: u32) -> Option<(u32, &str)> {
    match store.extents().get(extent as usize) {
        None => None,
        Some(_) => match lower_bounds(store, extent) {
            Ok(()) => None,
            Err(fault) => Some((fault.object.0, store.metas().feature_name(fault.feature))),
        },
    }
}

/// The objects of an extent are looked through in order, and the features of each.
#[test]
fn the_first_slot_below_its_bound_is_told(rt: HostRuntime) -> Result<(), Fail> {
    let alloc = rt.alloc();
    let mut store = store_of(&rt, alloc, PLAYERS, "P@1 P P")?;
    assert_eq!(rt; lacking(&store, 0), Some((1, "lead")));
    step(&rt, alloc, &mut store, "1.lead := 2 = done; 1.lead 2")?;
    step(
        &rt,
        alloc,
        &mut store,
        "1.marks := #5 = done; 1.lead 2; 1.marks #5",
    )?;
    assert_eq!(rt; lacking(&store, 0), Some((1, "marks")));
    step(
        &rt,
        alloc,
        &mut store,
        "1.marks += #6 = done; 1.lead 2; 1.marks #5 #6",
    )?;
    assert_eq!(rt; lacking(&store, 0), Some((2, "lead")));
    assert_eq!(rt; lacking(&store, 1), Some((0, "lead")));
    assert_eq!(rt; lacking(&store, 2), None);
    Ok(())
}
