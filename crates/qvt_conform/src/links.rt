//! The references of a model by features that have an opposite.

ghost use Rattle.std.specs.Prelude.{◌≡◌, [], length, ◌<◌, ◌^◌, IfOk, OnOk};
ghost use Rattle.std.specs.List.{list_any};

use indexmap::IndexSet;
use qvt_base::list_fault::ListFault;
use qvt_base::numbers::FeatureNo;
use qvt_metas::metas::Metas;
use qvt_model::data::{Datum, ObjectData, SlotData};
use std::alloc::Global;
use std::marker::Model;

/// An object, a feature of its class, and an object that it holds for it.
#[derive(Clone, Copy, PartialEq, Eq, Hash)]
pub struct ObjectLink {
    pub object: u32,
    pub feature: u32,
    pub target: u32,
}

/// References, looked up by hash.
pub struct Links {
    keys: IndexSet<ObjectLink>,
}

impl Drop for Links {
    fn drop(self) {
        let Links { keys } = self;
    }
}

impl Model for Links {
    ghost use Rattle.std.specs.Prelude.{List};
    ghost use Rattle.qvt_conform.specs.declared.links.ObjectLink.{ObjectLink};

    ghost Value = { List ObjectLink };

    ghost view = { λ s. s.keys.keys };
}

impl Links {
    ghost use Rattle.qvt_conform.specs.Links.{same_link, links_of_item, links_of_items, links_of_slot, links_of_slots, links_from};
    ghost use Rattle.qvt_conform.specs.Joined.{Joined};

    /// None yet. It takes no memory.
    fn new(alloc: Global) -> Links
        ensures { result ≡ [] }
    {
        Links {
            keys: IndexSet::new(alloc),
        }
    }

    /// Whether the reference is one of these.
    pub fn holds(&self, link: ObjectLink) -> bool
        ensures { result ≡ list_any (same_link link) self.now }
    {
        self.keys.contains(&link)
    }

    fn add(&mut self, link: ObjectLink) -> Result<(), ListFault>
        ensures { OnOk result (Joined self.old (link ∷ []) self.new) }
    {
        match self.keys.insert(link) {
            Ok(_) => Ok(()),
            Err(_) => Err(ListFault::NoMemory),
        }
    }

    ghost use Rattle.std.specs.Prelude.{◌∷◌};

    #[tactic(auto, using(crate::proofs::Joins::nothing_joined))]
    fn add_item(&mut self, object: u32, feature: FeatureNo, item: &Datum) -> Result<(), ListFault>
        ensures { OnOk result (Joined self.old (links_of_item object feature.0 item.now) self.new) }
    {
        match item {
            Datum::Ref(target) => self.add(ObjectLink {
                object,
                feature: feature.0,
                target: *target,
            }),
            Datum::Bool(_) => Ok(()),
            Datum::Int(_) => Ok(()),
            Datum::Str(_) => Ok(()),
            Datum::Literal(_) => Ok(()),
        }
    }

    #[tactic(auto, using(crate::proofs::Joins::chained, crate::proofs::Joins::nothing_joined))]
    fn add_items(
        &mut self,
        object: u32,
        feature: FeatureNo,
        items: &[Datum],
    ) -> Result<(), ListFault>
        ensures { OnOk result (Joined self.old (links_of_items object feature.0 items.now) self.new) }
    {
        for item in items {
            self.add_item(object, feature, item)?;
        }
        Ok(())
    }

    #[tactic(auto, using(crate::proofs::Joins::nothing_joined))]
    fn add_slot(&mut self, metas: &Metas, object: u32, slot: &SlotData) -> Result<(), ListFault>
        ensures { OnOk result (Joined self.old (links_of_slot metas.now object slot.now) self.new) }
    {
        match metas.opposite(slot.feature) {
            Some(_) => self.add_items(object, slot.feature, slot.items.as_slice()),
            None => Ok(()),
        }
    }

    #[tactic(auto, using(crate::proofs::Joins::chained, crate::proofs::Joins::nothing_joined))]
    fn add_slots(&mut self, metas: &Metas, object: u32, slots: &[SlotData]) -> Result<(), ListFault>
        ensures { OnOk result (Joined self.old (links_of_slots metas.now object slots.now) self.new) }
    {
        for slot in slots {
            self.add_slot(metas, object, slot)?;
        }
        Ok(())
    }

    /// The references of a model.
    #[tactic(auto, using(crate::proofs::Joins::chained, crate::proofs::Joins::nothing_joined))]
    pub fn of(alloc: Global, metas: &Metas, objects: &[ObjectData]) -> Result<Links, ListFault>
        requires few { length objects.now < 2 ^ 32 }
        ensures { IfOk result (Joined [] (links_from metas.now 0 objects.now)) }
    {
        let mut links = Links::new(alloc);
        for (i, object) in objects.iter().enumerate() {
            links.add_slots(metas, i as u32, object.slots.as_slice())?;
        }
        Ok(links)
    }
}
