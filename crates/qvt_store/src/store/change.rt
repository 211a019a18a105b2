//! What a change does to the slots other than the changed one.

ghost use Rattle.std.specs.Prelude.{◌≡◌, ◌==◌, ◌&&◌, filter, IfOk};
ghost use Rattle.qvt_slots.specs.Change.{is_some_object, is_here, is_added, is_removed, gains, is_taken, is_replaced, is_moved_in, is_moved, leaves, is_left, loses, keeps, with_end, slot_elsewhere};
ghost use Rattle.qvt_slots.specs.Contents.{slot_of};
ghost use Rattle.qvt_slots.specs.Slots.{has};
ghost use Rattle.qvt_store.specs.Draft.{drafted, RemovesHeld};

use crate::store::Store;
use qvt_base::copied::Copied;
use qvt_base::list_fault::ListFault;
use qvt_base::numbers::{FeatureNo, Oid};
use qvt_base::seq::Seq;
use qvt_slots::draft::Draft;
use qvt_slots::features::{is_container, is_containment, is_opposite, is_single};
use qvt_slots::values::holds;
use qvt_value::value::{Value, Values};
use std::alloc::Global;

impl Store {
    pub(super) fn is_here(&self, draft: &Draft, object: Oid, feature: FeatureNo) -> bool
        ensures { result ≡ is_here (drafted self.now draft.now) object.0 feature.0 }
    {
        object.0 == draft.object.0 && feature.0 == draft.feature.0
    }

    fn is_added(&self, draft: &Draft, item: Oid) -> bool
        ensures { result ≡ is_added (drafted self.now draft.now) item.0 }
    {
        draft.added.holds(item)
    }

    fn is_removed(&self, draft: &Draft, item: Oid) -> bool
        ensures { result ≡ is_removed (drafted self.now draft.now) item.0 }
    {
        draft.removed.holds(item)
    }

    fn adds_some(&self, draft: &Draft) -> bool
        ensures { result ≡ is_some_object (drafted self.now draft.now).added }
    {
        match draft.added.as_slice() {
            [] => false,
            [_, ..] => true,
        }
    }

    fn gains(&self, draft: &Draft, object: Oid, feature: FeatureNo) -> bool
        ensures { result ≡ gains (drafted self.now draft.now) object.0 feature.0 }
    {
        is_opposite(&self.metas, draft.feature, feature) && self.is_added(draft, object)
    }

    fn is_taken(&self, draft: &Draft, object: Oid, feature: FeatureNo, item: Oid) -> bool
        ensures { result ≡ is_taken (drafted self.now draft.now) object.0 feature.0 item.0 }
    {
        self.is_here(draft, object, feature) && self.is_removed(draft, item)
    }

    fn is_replaced(&self, draft: &Draft, object: Oid, feature: FeatureNo, item: Oid) -> bool
        ensures { result ≡ is_replaced (drafted self.now draft.now) object.0 feature.0 item.0 }
    {
        self.gains(draft, object, feature)
            && is_single(&self.metas, feature)
            && item.0 != draft.object.0
    }

    fn is_moved_in(&self, draft: &Draft, object: Oid, feature: FeatureNo, item: Oid) -> bool
        ensures { result ≡ is_moved_in (drafted self.now draft.now) object.0 feature.0 item.0 }
    {
        is_containment(&self.metas, draft.feature)
            && is_containment(&self.metas, feature)
            && self.is_added(draft, item)
            && !self.is_here(draft, object, feature)
    }

    fn is_moved(&self, draft: &Draft, object: Oid, feature: FeatureNo, item: Oid) -> bool
        ensures { result ≡ is_moved (drafted self.now draft.now) object.0 feature.0 item.0 }
    {
        is_container(&self.metas, draft.feature)
            && self.adds_some(draft)
            && is_containment(&self.metas, feature)
            && item.0 == draft.object.0
            && !self.gains(draft, object, feature)
    }

    fn leaves(&self, draft: &Draft, object: Oid, feature: FeatureNo, item: Oid) -> bool
        ensures { result ≡ leaves (drafted self.now draft.now) object.0 feature.0 item.0 }
    {
        self.is_taken(draft, object, feature, item)
            || self.is_replaced(draft, object, feature, item)
            || self.is_moved_in(draft, object, feature, item)
            || self.is_moved(draft, object, feature, item)
    }

    /// Whether the slot holds the item. What is removed from the changed slot stands there.
    fn had(&self, draft: &Draft, object: Oid, feature: FeatureNo, item: Oid) -> bool
        requires { RemovesHeld self.now draft.now }
        ensures { result ≡ has (slot_of self.now object.0 feature.0) item.0 }
    {
        self.is_taken(draft, object, feature, item) || self.holds_item(object, feature, item)
    }

    /// Whether the object is taken out of the opposite slot of the item. That slot is read only
    /// where something leaves it.
    fn is_left(&self, draft: &Draft, opposite: Option<FeatureNo>, object: Oid, item: Oid) -> bool
        requires { RemovesHeld self.now draft.now }
        ensures { result ≡ is_left (drafted self.now draft.now) opposite object.0 item.0 }
    {
        match opposite {
            None => false,
            Some(back) => {
                if self.leaves(draft, item, back, object) {
                    self.had(draft, item, back, object)
                } else {
                    false
                }
            }
        }
    }

    fn loses(&self, draft: &Draft, object: Oid, feature: FeatureNo, item: Oid) -> bool
        requires { RemovesHeld self.now draft.now }
        ensures { result ≡ loses (drafted self.now draft.now) object.0 feature.0 item.0 }
    {
        self.leaves(draft, object, feature, item)
            || self.is_left(draft, self.metas.opposite(feature), object, item)
    }

    fn keeps(&self, draft: &Draft, object: Oid, feature: FeatureNo, value: &Value) -> bool
        requires { RemovesHeld self.now draft.now }
        ensures { result ≡ keeps (drafted self.now draft.now) object.0 feature.0 value.now }
    {
        match value {
            Value::Obj(item) => !self.loses(draft, object, feature, *item),
            _ => true,
        }
    }

    /// What stays in a slot other than the changed one.
    fn kept(
        &self,
        alloc: Global,
        draft: &Draft,
        object: Oid,
        feature: FeatureNo,
    ) -> Result<Values, ListFault>
        requires { RemovesHeld self.now draft.now }
        ensures { IfOk result (λ list. list ≡ filter (keeps (drafted self.now draft.now) object.0 feature.0) (slot_of self.now object.0 feature.0)) }
    {
        let old = self.list(object, feature);
        let mut list = Seq::new(alloc);
        for value in old {
            if self.keeps(draft, object, feature, value) {
                list.push(value.copy(alloc)?)?;
            }
        }
        Ok(list)
    }

    /// The list with the changed object as its one item, or last.
    fn with_end(
        &self,
        alloc: Global,
        draft: &Draft,
        feature: FeatureNo,
        mut list: Values,
    ) -> Result<Values, ListFault>
        ensures { IfOk result (λ new. new ≡ with_end (drafted self.now draft.now) feature.0 list) }
    {
        if is_single(&self.metas, feature) {
            let mut one = Seq::new(alloc);
            one.push(Value::Obj(draft.object))?;
            return Ok(one);
        }
        if !holds(list.as_slice(), draft.object) {
            list.push(Value::Obj(draft.object))?;
        }
        Ok(list)
    }

    /// The list that a slot other than the changed one then holds.
    pub(super) fn list_elsewhere(
        &self,
        alloc: Global,
        draft: &Draft,
        object: Oid,
        feature: FeatureNo,
    ) -> Result<Values, ListFault>
        requires { RemovesHeld self.now draft.now }
        ensures { IfOk result (λ list. list ≡ slot_elsewhere (drafted self.now draft.now) object.0 feature.0) }
    {
        let list = self.kept(alloc, draft, object, feature)?;
        if self.gains(draft, object, feature) {
            let list = self.with_end(alloc, draft, feature, list)?;
            return Ok(list);
        }
        Ok(list)
    }
}
