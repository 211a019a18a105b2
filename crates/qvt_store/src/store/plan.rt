//! The slots other than the changed one that a change may touch, each with its new list.

ghost use Rattle.std.specs.Prelude.{◌≡◌, ◌∷◌, [], IfOk, OnOk};
ghost use Rattle.qvt_metamodel.specs.Metamodels.{is_containment};
ghost use Rattle.qvt_slots.specs.Change.{is_container};
ghost use Rattle.qvt_slots.specs.Contents.{is_slot};
ghost use Rattle.qvt_store.specs.Draft.{drafted, RemovesHeld};
ghost use Rattle.qvt_store.specs.Plan.{Plans, IsSlotOf, IsSlotOfSome, IsOwnerSlot, IsAround, IsAroundSome, IsHeldSlot, IsOppositeSlot, IsOpposed, IsRehoused, IsPlan};
ghost use Rattle.std.specs.Prelude.{ℕ};

use crate::store::Store;
use qvt_base::list_fault::ListFault;
use qvt_base::numbers::{FeatureNo, Oid};
use qvt_slots::commit::Write;
use qvt_slots::draft::Draft;
use qvt_slots::features::{is_container, is_containment};
use qvt_slots::planned::Planned;
use qvt_slots::put::find_place;
use qvt_value::value::Value;
use std::alloc::Global;

impl Store {
    fn is_slot(&self, object: Oid, feature: FeatureNo) -> bool
        ensures { result ≡ is_slot self.now object.0 feature.0 }
    {
        let at = object.0 as usize;
        at < self.cells.len() && find_place(&self.metas, self.cells[at].class, feature).is_some()
    }

    /// Plans a write of the slot, where it is one, is not the changed one and is not planned yet.
    fn plan_slot(
        &self,
        alloc: Global,
        writes: &mut Planned,
        draft: &Draft,
        object: Oid,
        feature: FeatureNo,
    ) -> Result<(), ListFault>
        requires { RemovesHeld self.now draft.now }
        ensures { OnOk result (Plans self.now (drafted self.now draft.now) writes.old writes.new (IsSlotOf object.0 feature.0)) }
    {
        if !self.is_slot(object, feature) || self.is_here(draft, object, feature) {
            return Ok(());
        }
        if writes.holds(object, feature) {
            return Ok(());
        }
        let items = self.list_elsewhere(alloc, draft, object, feature)?;
        let write = Write {
            object,
            feature,
            items,
        };
        writes.push(write)?;
        Ok(())
    }

    /// Plans the feature's slot of each of the objects.
    fn plan_each(
        &self,
        alloc: Global,
        writes: &mut Planned,
        draft: &Draft,
        objects: &[Oid],
        feature: FeatureNo,
    ) -> Result<(), ListFault>
        requires { RemovesHeld self.now draft.now }
        ensures { OnOk result (Plans self.now (drafted self.now draft.now) writes.old writes.new (IsSlotOfSome objects.now feature.0)) }
    {
        for object in objects {
            self.plan_slot(alloc, writes, draft, *object, feature)?;
        }
        Ok(())
    }

    /// Plans the changed feature's slot of the value, if it is an object.
    fn plan_owner(
        &self,
        alloc: Global,
        writes: &mut Planned,
        draft: &Draft,
        value: &Value,
    ) -> Result<(), ListFault>
        requires { RemovesHeld self.now draft.now }
        ensures { OnOk result (Plans self.now (drafted self.now draft.now) writes.old writes.new (IsHeldSlot (value.now ∷ []) draft.now.feature.0)) }
    {
        match value {
            Value::Obj(object) => {
                self.plan_slot(alloc, writes, draft, *object, draft.feature)?;
                Ok(())
            }
            _ => Ok(()),
        }
    }

    /// Plans the changed feature's slot of each object of the list.
    fn plan_values(
        &self,
        alloc: Global,
        writes: &mut Planned,
        draft: &Draft,
        values: &[Value],
    ) -> Result<(), ListFault>
        requires { RemovesHeld self.now draft.now }
        ensures { OnOk result (Plans self.now (drafted self.now draft.now) writes.old writes.new (IsHeldSlot values.now draft.now.feature.0)) }
    {
        for value in values {
            self.plan_owner(alloc, writes, draft, value)?;
        }
        Ok(())
    }

    /// Plans the slots of the changed feature that hold the objects, by the objects' opposite slots.
    fn plan_owners(
        &self,
        alloc: Global,
        writes: &mut Planned,
        draft: &Draft,
        objects: &[Oid],
        opposite: FeatureNo,
    ) -> Result<(), ListFault>
        requires { RemovesHeld self.now draft.now }
        ensures { OnOk result (Plans self.now (drafted self.now draft.now) writes.old writes.new (IsOwnerSlot self.now objects.now opposite.0 draft.now.feature.0)) }
    {
        for object in objects {
            let owners = self.list(*object, opposite);
            self.plan_values(alloc, writes, draft, owners)?;
        }
        Ok(())
    }

    /// Plans the slot of the object that is opposite to the feature.
    fn plan_opposite(
        &self,
        alloc: Global,
        writes: &mut Planned,
        draft: &Draft,
        object: Oid,
        feature: FeatureNo,
    ) -> Result<(), ListFault>
        requires { RemovesHeld self.now draft.now }
        ensures { OnOk result (Plans self.now (drafted self.now draft.now) writes.old writes.new (IsOppositeSlot self.now object.0 feature.0)) }
    {
        match self.metas.opposite(feature) {
            None => Ok(()),
            Some(back) => {
                self.plan_slot(alloc, writes, draft, object, back)?;
                Ok(())
            }
        }
    }

    /// Plans the containment slot that the object stands in, and the slot opposite to it.
    fn plan_around(
        &self,
        alloc: Global,
        writes: &mut Planned,
        draft: &Draft,
        object: Oid,
    ) -> Result<(), ListFault>
        requires { RemovesHeld self.now draft.now }
        ensures { OnOk result (Plans self.now (drafted self.now draft.now) writes.old writes.new (IsAround self.now object.0)) }
    {
        match self.holder(object) {
            None => Ok(()),
            Some(holder) => {
                self.plan_slot(alloc, writes, draft, holder.object, holder.feature)?;
                self.plan_opposite(alloc, writes, draft, object, holder.feature)?;
                Ok(())
            }
        }
    }

    fn plan_around_each(
        &self,
        alloc: Global,
        writes: &mut Planned,
        draft: &Draft,
        objects: &[Oid],
    ) -> Result<(), ListFault>
        requires { RemovesHeld self.now draft.now }
        ensures { OnOk result (Plans self.now (drafted self.now draft.now) writes.old writes.new (IsAroundSome self.now objects.now)) }
    {
        for object in objects {
            self.plan_around(alloc, writes, draft, *object)?;
        }
        Ok(())
    }

    fn plan_containers(
        &self,
        alloc: Global,
        writes: &mut Planned,
        draft: &Draft,
    ) -> Result<(), ListFault>
        requires { RemovesHeld self.now draft.now }
        ensures { OnOk result (Plans self.now (drafted self.now draft.now) writes.old writes.new (IsRehoused self.now (drafted self.now draft.now))) }
    {
        if is_containment(&self.metas, draft.feature) {
            self.plan_around_each(alloc, writes, draft, draft.added.as_slice())?;
            return Ok(());
        }
        if is_container(&self.metas, draft.feature) {
            self.plan_around(alloc, writes, draft, draft.object)?;
            return Ok(());
        }
        Ok(())
    }

    fn plan_opposites(
        &self,
        alloc: Global,
        writes: &mut Planned,
        draft: &Draft,
    ) -> Result<(), ListFault>
        requires { RemovesHeld self.now draft.now }
        ensures { OnOk result (Plans self.now (drafted self.now draft.now) writes.old writes.new (IsOpposed self.now (drafted self.now draft.now))) }
    {
        match self.metas.opposite(draft.feature) {
            None => Ok(()),
            Some(back) => {
                self.plan_each(alloc, writes, draft, draft.removed.as_slice(), back)?;
                self.plan_each(alloc, writes, draft, draft.added.as_slice(), back)?;
                self.plan_owners(alloc, writes, draft, draft.added.as_slice(), back)?;
                Ok(())
            }
        }
    }

    /// Every slot other than the changed one that may change, with its new list.
    pub(super) fn plan(&self, alloc: Global, draft: &Draft) -> Result<Vec<Write>, ListFault>
        requires { RemovesHeld self.now draft.now }
        ensures { IfOk result (λ writes. IsPlan self.now (drafted self.now draft.now) writes.items) }
    {
        let mut writes = Planned::new(alloc);
        self.plan_opposites(alloc, &mut writes, draft)?;
        self.plan_containers(alloc, &mut writes, draft)?;
        let _metas = &self.metas;
        Ok(writes.into_vec())
    }
}
