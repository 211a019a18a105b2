//! Slots loaded.

ghost use Rattle.std.specs.Prelude.{◌≡◌, All, IfOk, IfErr, OnOk, OnErr, IsFalse};
ghost use Rattle.qvt_metamodel.specs.Metamodels.{opposite};
ghost use Rattle.qvt_slots.specs.Slots.{OppositesAgree};
ghost use Rattle.qvt_slots.specs.Change.{is_some_feature};
ghost use Rattle.qvt_slots.specs.Contents.{slot_of, with_slot};
ghost use Rattle.qvt_slots.specs.Types.{HasCodeType};
ghost use Rattle.qvt_store_laws.specs.Place.{IsPlaceable, places_twice};
ghost use Rattle.qvt_store_laws.specs.Sound.{Sound, SoundButOpposites, IsSoundList};
ghost use Rattle.qvt_store_laws.specs.Stay.{StaysIn};

use crate::store::Store;
use qvt_base::list_fault::ListFault;
use qvt_base::numbers::{FeatureNo, Oid};
use qvt_slots::cell::marks_placed;
use qvt_slots::commit::{Write, hold_write};
use qvt_slots::fault::StoreFault;
use qvt_slots::features::is_unique;
use qvt_slots::put::put;
use qvt_slots::values::{copied, repeats};
use qvt_value::value::Value;
use std::alloc::Global;

impl Store {
    /// Sets an empty slot, and nothing else, in an extent of every direction. A refused call
    /// changes nothing. A store that is loaded is sound again where opposite slots agree; a sound one
    /// stays sound where the feature has no opposite.
    pub fn place(
        &mut self,
        object: Oid,
        feature: FeatureNo,
        values: &[Value],
    ) -> Result<(), StoreFault>
        requires { IsPlaceable self.old object.0 feature.0 values.now }
        ensures ok { OnOk result (self.new ≡ with_slot self.old object.0 feature.0 values.now) }
        ensures refused { IfErr result (λ fault. fault ≡ StoreFault.NoMemory) }
        ensures err { OnErr result (self.new ≡ self.old) }
        ensures stays { StaysIn self.old self.new }
        ensures loading { IsSoundList self.old object.0 feature.0 values.now → SoundButOpposites self.old → SoundButOpposites self.new }
        ensures ends { IsSoundList self.old object.0 feature.0 values.now → SoundButOpposites self.old → OppositesAgree self.new.metas (slot_of self.new) → Sound self.new }
        ensures sound { IsSoundList self.old object.0 feature.0 values.now → IsFalse (is_some_feature (opposite self.old.metas feature.0)) → Sound self.old → Sound self.new }
    {
        self.is_whole();
        let alloc = self.alloc;
        match self.place_list(alloc, object, feature, values) {
            Ok(()) => Ok(()),
            Err(fault) => Err(fault),
        }
    }

    /// As `place`. What is put in the slot is plain.
    fn place_list(
        &mut self,
        alloc: Global,
        object: Oid,
        feature: FeatureNo,
        values: &[Value],
    ) -> Result<(), StoreFault>
        requires { IsPlaceable self.old object.0 feature.0 values.now }
        ensures ok { OnOk result (self.new ≡ with_slot self.old object.0 feature.0 values.now) }
        ensures plain { OnOk result (All HasCodeType values.now) }
        ensures refused { IfErr result (λ fault. fault ≡ StoreFault.NoMemory) }
        ensures err { OnErr result (self.new ≡ self.old) }
    {
        let twice = self.places_twice(alloc, feature, values)?;
        let items = copied(alloc, values)?;
        let write = Write {
            object,
            feature,
            items,
        };
        self.load(write, twice);
        Ok(())
    }

    /// Whether the slot is unique, and a value stands twice among these.
    fn places_twice(
        &self,
        alloc: Global,
        feature: FeatureNo,
        values: &[Value],
    ) -> Result<bool, ListFault>
        ensures { IfOk result (λ twice. twice ≡ places_twice self.now.metas feature.0 values.now) }
    {
        if !is_unique(&self.metas, feature) {
            return Ok(false);
        }
        let twice = repeats(alloc, values)?;
        Ok(twice)
    }

    fn load(&mut self, write: Write, twice: bool)
        requires placeable { IsPlaceable self.old write.object.0 write.feature.0 write.items }
        requires twice { twice ≡ places_twice self.old.metas write.feature.0 write.items }
        ensures { self.new ≡ with_slot self.old write.object.0 write.feature.0 write.items }
    {
        let crosses = self.crosses(write.object, write.items.as_slice());
        self.marks = marks_placed(self.marks, crosses, twice);
        hold_write(&self.metas, &mut self.cells, &write);
        put(
            &self.metas,
            &mut self.cells,
            write.object,
            write.feature,
            write.items,
        );
    }
}
