//! Values put last in slots, with all that follows for the other slots.

ghost use Rattle.std.specs.Prelude.{◌≡◌, ◌≢◌, ◌++◌, ◌∷◌, [], Ok, Err, IsTrue, IsFalse, IfOk, IfErr, OnOk, OnErr};
ghost use Rattle.qvt_slots.specs.Contents.{slot_of};
ghost use Rattle.std.specs.List.{list_any};
ghost use Rattle.qvt_value.specs.Kept.{is_same};
ghost use Rattle.qvt_value.specs.Order.{order_of};
ghost use Rattle.qvt_slots.specs.Repeats.{new_list, AreUnique};
ghost use Rattle.qvt_slots.specs.Assign.{append, crosses, change_to, store_after};
ghost use Rattle.qvt_slots.specs.Types.{IsAssignable};
ghost use Rattle.qvt_slots.specs.Change.{is_linked, objects_beyond};
ghost use Rattle.qvt_slots.specs.Slots.{has};
ghost use Rattle.qvt_store.specs.Ready.{IsKnown, IsLone, Ready};
ghost use Rattle.qvt_store_laws.specs.Sound.{Sound};
ghost use Rattle.qvt_store_laws.specs.Stay.{InputsStay, StaysIn};

use crate::store::Store;
use crate::store::assign::marks_changed;
use qvt_base::copied::Copied;
use qvt_base::list_fault::ListFault;
use qvt_base::lists::OidList;
use qvt_base::numbers::{FeatureNo, Oid};
use qvt_base::seq::Seq;
use qvt_slots::commit::{Write, settle};
use qvt_slots::draft::Draft;
use qvt_slots::fault::StoreFault;
use qvt_slots::features::{exceeds_bound, is_containment, is_linked, upper};
use qvt_slots::object_list::Objects;
use qvt_slots::put::push_value;
use qvt_slots::values::{copied, holds, holds_value, is_plain};
use qvt_value::value::{Value, Values};
use std::alloc::Global;

impl Store {
    /// Puts a value last in a slot, with all that follows for the other slots: opposites and
    /// containers. In a unique slot that holds the value nothing is put. The refusals are those of an
    /// assignment of the whole list; after each of them, and for want of memory, the store is
    /// unchanged. The list itself is not copied.
    pub fn append(
        &mut self,
        object: Oid,
        feature: FeatureNo,
        value: &Value,
    ) -> Result<(), StoreFault>
        requires { IsAssignable self.old object.0 feature.0 (value.now ∷ []) }
        ensures ok { OnOk result (append self.old object.0 feature.0 value.now ≡ Ok self.new) }
        ensures refused { IfErr result (λ fault. fault ≢ StoreFault.NoMemory → append self.old object.0 feature.0 value.now ≡ Err fault) }
        ensures err { OnErr result (self.new ≡ self.old) }
        ensures stays { StaysIn self.old self.new }
        ensures sound { Sound self.old → Sound self.new }
        ensures inputs { Sound self.old → InputsStay self.old self.new }
    {
        self.is_whole();
        is_plain(value);
        let alloc = self.alloc;
        match self.append_value(alloc, object, feature, value) {
            Ok(()) => Ok(()),
            Err(fault) => Err(fault),
        }
    }

    /// As `append`.
    fn append_value(
        &mut self,
        alloc: Global,
        object: Oid,
        feature: FeatureNo,
        value: &Value,
    ) -> Result<(), StoreFault>
        requires { IsAssignable self.old object.0 feature.0 (value.now ∷ []) }
        ensures ok { OnOk result (append self.old object.0 feature.0 value.now ≡ Ok self.new) }
        ensures refused { IfErr result (λ fault. fault ≢ StoreFault.NoMemory → append self.old object.0 feature.0 value.now ≡ Err fault) }
        ensures err { OnErr result (self.new ≡ self.old) }
    {
        let unique = self.is_unique_feature(feature);
        if !unique {
            match self.append_last(alloc, object, feature, value) {
                Ok(()) => return Ok(()),
                Err(fault) => return Err(fault),
            }
        }
        if !self.is_distinct() {
            match self.append_whole(alloc, object, feature, value) {
                Ok(()) => return Ok(()),
                Err(fault) => return Err(fault),
            }
        }
        if self.has_value(object, feature, value) {
            match self.append_none(alloc, object, feature, value) {
                Ok(()) => return Ok(()),
                Err(fault) => return Err(fault),
            }
        }
        match self.append_last(alloc, object, feature, value) {
            Ok(()) => Ok(()),
            Err(fault) => Err(fault),
        }
    }

    /// Whether it is known that no unique slot holds a value twice.
    pub(super) fn is_distinct(&self) -> bool
        ensures { IsTrue result → AreUnique self.now }
    {
        self.marks.distinct
    }

    /// The list of a slot, and the value last.
    fn appended(
        &self,
        alloc: Global,
        object: Oid,
        feature: FeatureNo,
        value: &Value,
    ) -> Result<Values, ListFault>
        ensures { IfOk result (λ list. list ≡ slot_of self.now object.0 feature.0 ++ value.now ∷ []) }
    {
        let mut list = copied(alloc, self.list(object, feature))?;
        list.push(value.copy(alloc)?)?;
        Ok(list)
    }

    /// As an assignment of the whole list.
    fn append_whole(
        &mut self,
        alloc: Global,
        object: Oid,
        feature: FeatureNo,
        value: &Value,
    ) -> Result<(), StoreFault>
        requires can { IsAssignable self.old object.0 feature.0 (value.now ∷ []) }
        requires known { IsKnown self.old }
        ensures ok { OnOk result (append self.old object.0 feature.0 value.now ≡ Ok self.new) }
        ensures refused { IfErr result (λ fault. fault ≢ StoreFault.NoMemory → append self.old object.0 feature.0 value.now ≡ Err fault) }
        ensures err { OnErr result (self.new ≡ self.old) }
    {
        let list = self.appended(alloc, object, feature, value)?;
        match self.assign_list(alloc, object, feature, list.as_slice()) {
            Ok(()) => Ok(()),
            Err(fault) => Err(fault),
        }
    }

    /// Where the slot holds the value: it is judged, and stays.
    fn append_none(
        &mut self,
        alloc: Global,
        object: Oid,
        feature: FeatureNo,
        _value: &Value,
    ) -> Result<(), StoreFault>
        requires can { IsAssignable self.old object.0 feature.0 (_value.now ∷ []) }
        requires known { IsKnown self.old }
        requires same { new_list self.old.metas feature.0 (slot_of self.old object.0 feature.0 ++ _value.now ∷ []) ≡ slot_of self.old object.0 feature.0 }
        ensures ok { OnOk result (append self.old object.0 feature.0 _value.now ≡ Ok self.new) }
        ensures refused { IfErr result (λ fault. fault ≢ StoreFault.NoMemory → append self.old object.0 feature.0 _value.now ≡ Err fault) }
        ensures err { OnErr result (self.new ≡ self.old) }
    {
        let added = Objects::new(alloc);
        let removed = Objects::new(alloc);
        let draft = Draft {
            object,
            feature,
            added,
            removed,
        };
        let old = self.list(object, feature);
        match self.check(alloc, &draft, old.len()) {
            Err(fault) => return Err(fault),
            Ok(()) => {}
        }
        if self.crosses(object, self.list(object, feature)) {
            return Err(StoreFault::CrossModel);
        }
        Ok(())
    }

    /// Where the value is put last.
    fn append_last(
        &mut self,
        alloc: Global,
        object: Oid,
        feature: FeatureNo,
        value: &Value,
    ) -> Result<(), StoreFault>
        requires can { IsAssignable self.old object.0 feature.0 (value.now ∷ []) }
        requires known { IsKnown self.old }
        requires last { new_list self.old.metas feature.0 (slot_of self.old object.0 feature.0 ++ value.now ∷ []) ≡ slot_of self.old object.0 feature.0 ++ value.now ∷ [] }
        ensures ok { OnOk result (append self.old object.0 feature.0 value.now ≡ Ok self.new) }
        ensures refused { IfErr result (λ fault. fault ≢ StoreFault.NoMemory → append self.old object.0 feature.0 value.now ≡ Err fault) }
        ensures err { OnErr result (self.new ≡ self.old) }
    {
        if self.is_linked_feature(feature) {
            match self.append_linked(alloc, object, feature, value) {
                Ok(()) => return Ok(()),
                Err(fault) => return Err(fault),
            }
        }
        match self.append_alone(alloc, object, feature, value) {
            Ok(()) => Ok(()),
            Err(fault) => Err(fault),
        }
    }

    /// Whether a change of a slot of the feature may touch other slots.
    pub(super) fn is_linked_feature(&self, feature: FeatureNo) -> bool
        ensures { result ≡ is_linked self.now.metas feature.0 }
    {
        is_linked(&self.metas, feature)
    }

    /// Whether the slot holds the object. A containment is not looked through: the object knows its
    /// holder.
    pub(super) fn holds_item(&self, object: Oid, feature: FeatureNo, item: Oid) -> bool
        ensures { result ≡ has (slot_of self.now object.0 feature.0) item.0 }
    {
        if is_containment(&self.metas, feature) {
            return match self.holder(item) {
                None => false,
                Some(holder) => holder.object.0 == object.0 && holder.feature.0 == feature.0,
            };
        }
        holds(self.list(object, feature), item)
    }

    /// Whether the slot holds a value equal to this one.
    #[tactic(auto, using(qvt_slots::proofs::Repeating::has_equal))]
    pub(super) fn has_value(&self, object: Oid, feature: FeatureNo, value: &Value) -> bool
        ensures { result ≡ list_any (λ other. is_same order_of other value.now) (slot_of self.now object.0 feature.0) }
    {
        match value {
            Value::Obj(item) => self.holds_item(object, feature, *item),
            _ => holds_value(self.list(object, feature), value),
        }
    }

    /// Puts the value last, if it is an object that the slot does not hold.
    pub(super) fn push_added(
        &self,
        list: &mut OidList,
        object: Oid,
        feature: FeatureNo,
        value: &Value,
    ) -> Result<(), ListFault>
        ensures ok { OnOk result (list.new ≡ list.old ++ objects_beyond (slot_of self.now object.0 feature.0) (value.now ∷ [])) }
    {
        match value {
            Value::Obj(item) => {
                if !self.holds_item(object, feature, *item) {
                    list.push(*item)?;
                }
                Ok(())
            }
            _ => Ok(()),
        }
    }

    /// The value, if it is an object that the slot does not hold.
    fn added(
        &self,
        alloc: Global,
        object: Oid,
        feature: FeatureNo,
        value: &Value,
    ) -> Result<Objects, ListFault>
        ensures { IfOk result (λ added. added ≡ objects_beyond (slot_of self.now object.0 feature.0) (value.now ∷ [])) }
    {
        let mut list = Seq::new(alloc);
        self.push_added(&mut list, object, feature, value)?;
        let added = Objects::of(alloc, list)?;
        Ok(added)
    }

    /// Where the value is put last in a slot whose changes touch no other.
    fn append_alone(
        &mut self,
        alloc: Global,
        object: Oid,
        feature: FeatureNo,
        value: &Value,
    ) -> Result<(), StoreFault>
        requires can { IsAssignable self.old object.0 feature.0 (value.now ∷ []) }
        requires known { IsKnown self.old }
        requires last { new_list self.old.metas feature.0 (slot_of self.old object.0 feature.0 ++ value.now ∷ []) ≡ slot_of self.old object.0 feature.0 ++ value.now ∷ [] }
        requires alone { IsFalse (is_linked self.old.metas feature.0) }
        ensures ok { OnOk result (append self.old object.0 feature.0 value.now ≡ Ok self.new) }
        ensures refused { IfErr result (λ fault. fault ≢ StoreFault.NoMemory → append self.old object.0 feature.0 value.now ≡ Err fault) }
        ensures err { OnErr result (self.new ≡ self.old) }
    {
        let Some(count) = self.list(object, feature).len().checked_add(1) else {
            return Err(StoreFault::NoMemory);
        };
        if exceeds_bound(count, upper(&self.metas, feature)) {
            return Err(StoreFault::TooMany);
        }
        if !self.is_writable(object) {
            return Err(StoreFault::ReadOnly);
        }
        if self.crosses_last(object, feature, value) {
            return Err(StoreFault::CrossModel);
        }
        let copy = value.copy(alloc)?;
        match self.carry_alone(object, feature, copy) {
            Ok(()) => Ok(()),
            Err(_) => Err(StoreFault::NoMemory),
        }
    }

    /// Puts the value last in a slot whose changes touch no other.
    fn carry_alone(
        &mut self,
        object: Oid,
        feature: FeatureNo,
        value: Value,
    ) -> Result<(), ListFault>
        requires { IsLone self.old object.0 feature.0 (value ∷ []) }
        ensures ok { OnOk result (self.new ≡ store_after self.old (change_to self.old object.0 feature.0 (slot_of self.old object.0 feature.0 ++ value ∷ []))) }
        ensures err { OnErr result (self.new ≡ self.old) }
    {
        push_value(&self.metas, &mut self.cells, object, feature, value)?;
        Ok(())
    }

    /// Where the value is put last in a slot whose changes may touch others.
    fn append_linked(
        &mut self,
        alloc: Global,
        object: Oid,
        feature: FeatureNo,
        value: &Value,
    ) -> Result<(), StoreFault>
        requires can { IsAssignable self.old object.0 feature.0 (value.now ∷ []) }
        requires known { IsKnown self.old }
        requires last { new_list self.old.metas feature.0 (slot_of self.old object.0 feature.0 ++ value.now ∷ []) ≡ slot_of self.old object.0 feature.0 ++ value.now ∷ [] }
        ensures ok { OnOk result (append self.old object.0 feature.0 value.now ≡ Ok self.new) }
        ensures refused { IfErr result (λ fault. fault ≢ StoreFault.NoMemory → append self.old object.0 feature.0 value.now ≡ Err fault) }
        ensures err { OnErr result (self.new ≡ self.old) }
    {
        let added = self.added(alloc, object, feature, value)?;
        let draft = Draft {
            object,
            feature,
            added,
            removed: Objects::new(alloc),
        };
        let Some(count) = self.list(object, feature).len().checked_add(1) else {
            return Err(StoreFault::NoMemory);
        };
        match self.check(alloc, &draft, count) {
            Err(fault) => return Err(fault),
            Ok(()) => {}
        }
        if self.crosses_last(object, feature, value) {
            return Err(StoreFault::CrossModel);
        }
        let Ok(writes) = self.plan(alloc, &draft) else {
            return Err(StoreFault::NoMemory);
        };
        let released = self.released(alloc, &draft, &writes)?;
        let copy = value.copy(alloc)?;
        match self.carry_append(&draft, copy, writes, released.as_slice()) {
            Ok(()) => Ok(()),
            Err(_) => Err(StoreFault::NoMemory),
        }
    }

    /// Carries out a change that puts the value last in the changed slot.
    fn carry_append(
        &mut self,
        draft: &Draft,
        value: Value,
        writes: Vec<Write>,
        released: &[Oid],
    ) -> Result<(), ListFault>
        requires { Ready self.old draft.now (slot_of self.old draft.now.object.0 draft.now.feature.0 ++ value ∷ []) writes.items released.now }
        ensures ok { OnOk result (self.new ≡ store_after self.old (change_to self.old draft.now.object.0 draft.now.feature.0 (slot_of self.old draft.now.object.0 draft.now.feature.0 ++ value ∷ []))) }
        ensures err { OnErr result (self.new ≡ self.old) }
    {
        let in_model = self.is_in_model(draft.object);
        push_value(
            &self.metas,
            &mut self.cells,
            draft.object,
            draft.feature,
            value,
        )?;
        self.marks = marks_changed(&self.metas, self.marks, in_model, draft.feature);
        settle(&self.metas, &mut self.cells, draft, writes, released);
        Ok(())
    }
}
