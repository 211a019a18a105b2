//! The slots of an object by feature.

ghost use Rattle.std.specs.Prelude.{◌≡◌, IfOk};
ghost use Rattle.qvt_model.specs.Items.{items_in};
ghost use Rattle.qvt_conform.specs.Slots.{IsSlotTable};

use indexmap::IndexMap;
use qvt_base::list_fault::ListFault;
use qvt_base::numbers::FeatureNo;
use qvt_model::data::{Datum, SlotData};
use std::alloc::Global;

/// The slots of an object, looked up by feature by hash.
pub struct SlotTable<'a> {
    slots: IndexMap<u32, &'a SlotData>,
}

impl Drop for SlotTable<'_> {
    fn drop(self) {
        let SlotTable { slots } = self;
    }
}

impl<'a> SlotTable<'a> {
    /// The table of these slots. They are entered from the last to the first, so that the first of a feature counts.
    #[tactic(auto, using(crate::proofs::Tables::nothing_entered, crate::proofs::Tables::one_entered, crate::proofs::Tables::all_entered))]
    pub fn of(alloc: Global, slots: &'a [SlotData]) -> Result<SlotTable<'a>, ListFault>
        ensures { IfOk result (IsSlotTable slots.now) }
    {
        let mut table = IndexMap::new(alloc);
        let mut left = slots.len();
        while left > 0 {
            left -= 1;
            let slot = &slots[left];
            let Ok(_) = table.insert(slot.feature.0, slot) else {
                return Err(ListFault::NoMemory);
            };
        }
        Ok(SlotTable { slots: table })
    }

    /// What the object holds for a feature.
    pub fn items(&self, slots: &[SlotData], feature: FeatureNo) -> &[Datum]
        requires { IsSlotTable slots.now self.now }
        ensures { result.now ≡ items_in feature.0 slots.now }
    {
        match self.slots.get(&feature.0) {
            Some(slot) => slot.items.as_slice(),
            None => &[],
        }
    }
}
