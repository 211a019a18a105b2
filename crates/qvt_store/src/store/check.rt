//! The refusals of a change.

ghost use Rattle.std.specs.Prelude.{◌≡◌, ◌↔◌, ◌++◌, ◌∷◌, [], IsTrue, IfOk, IfErr, OnOk};
ghost use Rattle.std.specs.List.{list_any};
ghost use Rattle.qvt_metamodel.specs.Metamodels.{opposite};
ghost use Rattle.qvt_slots.specs.Change.{among_objects};
ghost use Rattle.qvt_slots.specs.Contents.{HoldOwn, slot_of, is_live, extent_of, is_model, is_writable};
ghost use Rattle.qvt_slots.specs.Assign.{is_elsewhere, crosses};
ghost use Rattle.qvt_store.specs.Draft.{RemovesHeld, drafted, overfills_elsewhere, is_overfilling, AddsLive, IsAllowed, IsEarlyFault};
ghost use Rattle.qvt_slots.specs.Walk.{ClosesCycle, IsOver, SomeOver, IsOverSome};
ghost use Rattle.std.specs.Prelude.{ℕ};

use crate::store::Store;
use qvt_base::list_fault::ListFault;
use qvt_base::numbers::{FeatureNo, Oid};
use qvt_slots::draft::Draft;
use qvt_slots::fault::StoreFault;
use qvt_slots::features::{exceeds_bound, is_container, is_containment, upper};
use qvt_slots::walk::is_under;
use qvt_value::value::Value;
use std::alloc::Global;

impl Store {
    fn overfills_at(
        &self,
        alloc: Global,
        draft: &Draft,
        opposite: Option<FeatureNo>,
        added: Oid,
    ) -> Result<bool, ListFault>
        requires { RemovesHeld self.now draft.now }
        ensures { IfOk result (λ b. b ≡ overfills_elsewhere (drafted self.now draft.now) opposite added) }
    {
        match opposite {
            None => Ok(false),
            Some(back) => {
                let list = self.list_elsewhere(alloc, draft, added, back)?;
                Ok(exceeds_bound(list.len(), upper(&self.metas, back)))
            }
        }
    }

    fn overfills_any(&self, alloc: Global, draft: &Draft) -> Result<bool, ListFault>
        requires { RemovesHeld self.now draft.now }
        ensures { IfOk result (λ b. b ≡ list_any (overfills_elsewhere (drafted self.now draft.now) (opposite self.now.metas draft.now.feature.0)) draft.now.added) }
    {
        let back = self.metas.opposite(draft.feature);
        let objects = draft.added.as_slice();
        for added in objects {
            if self.overfills_at(alloc, draft, back, *added)? {
                return Ok(true);
            }
        }
        Ok(false)
    }

    /// Whether the new list, of so many items, or an opposite slot would pass its upper bound.
    fn overfills(&self, alloc: Global, draft: &Draft, count: usize) -> Result<bool, ListFault>
        requires { RemovesHeld self.now draft.now }
        ensures { IfOk result (λ b. b ≡ is_overfilling (drafted self.now draft.now) count) }
    {
        if exceeds_bound(count, upper(&self.metas, draft.feature)) {
            return Ok(true);
        }
        let any = self.overfills_any(alloc, draft)?;
        Ok(any)
    }

    /// Whether the object is one of these, or contains one of them.
    fn is_over_some(&self, object: Oid, objects: &[Oid]) -> bool
        requires { (y : ℕ) → IsTrue (among_objects objects.now y) → IsTrue (is_live self.now y) }
        ensures { IsTrue result ↔ IsOverSome self.now.metas (slot_of self.now) object.0 objects.now }
    {
        for item in objects {
            if self.is_over(object, *item) {
                return true;
            }
        }
        false
    }

    fn is_over(&self, object: Oid, item: Oid) -> bool
        requires { IsTrue (is_live self.now item.0) }
        ensures { IsTrue result ↔ IsOver self.now.metas (slot_of self.now) object.0 item.0 }
    {
        is_under(&self.metas, &self.cells, &[object], item)
    }

    fn is_some_over(&self, objects: &[Oid], item: Oid) -> bool
        requires { IsTrue (is_live self.now item.0) }
        ensures { IsTrue result ↔ SomeOver self.now.metas (slot_of self.now) objects.now item.0 }
    {
        is_under(&self.metas, &self.cells, objects, item)
    }

    /// Whether an object would be inside itself.
    fn closes_cycle(&self, draft: &Draft) -> bool
        requires live { IsTrue (is_live self.now draft.now.object.0) }
        requires added { AddsLive self.now (drafted self.now draft.now) }
        ensures { IsTrue result ↔ ClosesCycle (drafted self.now draft.now) }
    {
        if is_containment(&self.metas, draft.feature) {
            return self.is_some_over(draft.added.as_slice(), draft.object);
        }
        if is_container(&self.metas, draft.feature) {
            return self.is_over_some(draft.object, draft.added.as_slice());
        }
        false
    }

    fn extent_or_first(&self, object: Oid) -> u32
        ensures { result ≡ extent_of self.now object.0 }
    {
        let at = object.0 as usize;
        if at < self.cells.len() {
            self.cells[at].extent
        } else {
            0
        }
    }

    pub(super) fn is_writable(&self, object: Oid) -> bool
        ensures { result ≡ is_writable self.now object.0 }
    {
        match self.extents.get(self.extent_or_first(object) as usize) {
            Some(extent) => extent.writable,
            None => false,
        }
    }

    fn is_model(&self, extent: u32) -> bool
        ensures { result ≡ is_model self.now extent }
    {
        match self.extents.get(extent as usize) {
            Some(extent) => !extent.name.is_empty(),
            None => false,
        }
    }

    fn is_elsewhere(&self, object: Oid, value: &Value) -> bool
        ensures { result ≡ is_elsewhere self.now object.0 value.now }
    {
        match value {
            Value::Obj(item) => self.extent_or_first(*item) != self.extent_or_first(object),
            _ => false,
        }
    }

    /// Whether the object is in a model, and the list holds an object of another extent.
    pub(super) fn crosses(&self, object: Oid, values: &[Value]) -> bool
        ensures { result ≡ crosses self.now object.0 values.now }
    {
        self.is_in_model(object) && self.holds_elsewhere(object, values)
    }

    /// The same of the list with the value last.
    fn crosses_with(&self, object: Oid, values: &[Value], value: &Value) -> bool
        ensures { result ≡ crosses self.now object.0 (values.now ++ value.now ∷ []) }
    {
        self.is_in_model(object)
            && (self.holds_elsewhere(object, values) || self.is_elsewhere(object, value))
    }

    /// Whether it is known that the slots of models hold objects of their own extents alone.
    fn holds_own(&self) -> bool
        ensures { IsTrue result → HoldOwn self.now }
    {
        self.marks.own
    }

    pub(super) fn is_in_model(&self, object: Oid) -> bool
        ensures { result ≡ is_model self.now (extent_of self.now object.0) }
    {
        self.is_model(self.extent_or_first(object))
    }

    /// The same of the object's list with the value last. The list is only looked through where it
    /// is not known to hold objects of its own extent alone.
    pub(super) fn crosses_last(&self, object: Oid, feature: FeatureNo, value: &Value) -> bool
        ensures { result ≡ crosses self.now object.0 (slot_of self.now object.0 feature.0 ++ value.now ∷ []) }
    {
        if self.holds_own() {
            return self.is_in_model(object) && self.is_elsewhere(object, value);
        }
        self.crosses_with(object, self.list(object, feature), value)
    }

    /// The same of the object's list with the values last.
    pub(super) fn crosses_more(&self, object: Oid, feature: FeatureNo, values: &[Value]) -> bool
        ensures { result ≡ crosses self.now object.0 (slot_of self.now object.0 feature.0 ++ values.now) }
    {
        if self.holds_own() {
            return self.crosses(object, values);
        }
        self.is_in_model(object)
            && (self.holds_elsewhere(object, self.list(object, feature))
                || self.holds_elsewhere(object, values))
    }

    /// Whether the list holds an object of another extent than the object's.
    fn holds_elsewhere(&self, object: Oid, values: &[Value]) -> bool
        ensures { result ≡ list_any (is_elsewhere self.now object.0) values.now }
    {
        values.iter().any(|value| self.is_elsewhere(object, value))
    }

    /// The refusals of a change but that of another model. The new list has so many items.
    pub(super) fn check(&self, alloc: Global, draft: &Draft, count: usize) -> Result<(), StoreFault>
        requires live { IsTrue (is_live self.now draft.now.object.0) }
        requires added { AddsLive self.now (drafted self.now draft.now) }
        requires removed { RemovesHeld self.now draft.now }
        ensures ok { OnOk result (IsAllowed self.now (drafted self.now draft.now) count) }
        ensures refused { IfErr result (λ fault. IsEarlyFault self.now (drafted self.now draft.now) count fault) }
    {
        if self.overfills(alloc, draft, count)? {
            return Err(StoreFault::TooMany);
        }
        if self.closes_cycle(draft) {
            return Err(StoreFault::ContainmentCycle);
        }
        if !self.is_writable(draft.object) {
            return Err(StoreFault::ReadOnly);
        }
        Ok(())
    }
}
