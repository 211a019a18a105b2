//! Lists put last in slots: one change, with one refusal.

ghost use Rattle.std.specs.Prelude.{◌≡◌, ◌≢◌, ◌++◌, filter, All, Ok, Err, IsTrue, IsFalse, IfOk, IfErr, OnOk, OnErr};
ghost use Rattle.qvt_metamodel.specs.Metamodels.{shape_of};
ghost use Rattle.qvt_slots.specs.declared.op.SetOp.{SetOp};
ghost use Rattle.qvt_slots.specs.Contents.{slot_of};
ghost use Rattle.qvt_slots.specs.Repeats.{new_list, AreUnique};
ghost use Rattle.qvt_slots.specs.Assign.{change_to, store_after, write};
ghost use Rattle.qvt_slots.specs.Types.{IsAssignable, HasCodeType};
ghost use Rattle.qvt_slots.specs.Change.{is_linked, objects_beyond};
ghost use Rattle.qvt_store.specs.Ready.{is_absent, IsKnown, IsLone, Ready};
ghost use Rattle.qvt_store_laws.specs.Sound.{Sound};
ghost use Rattle.qvt_store_laws.specs.Stay.{InputsStay, StaysIn};

use crate::store::Store;
use crate::store::assign::marks_changed;
use qvt_base::copied::Copied;
use qvt_base::list_fault::ListFault;
use qvt_base::lists::OidList;
use qvt_base::numbers::{FeatureNo, Oid};
use qvt_base::seq::Seq;
use qvt_slots::commit::{Write, settle};
use qvt_slots::draft::Draft;
use qvt_slots::fault::StoreFault;
use qvt_slots::features::{exceeds_bound, is_containment, upper};
use qvt_slots::object_list::Objects;
use qvt_slots::put::push_values;
use qvt_slots::values::{copied, new_list};
use qvt_value::value::{Value, Values};
use std::alloc::Global;

/// How many values are looked for in a slot one by one.
const FEW: usize = 8;

impl Store {
    /// Puts the values last in a slot, in their order, with all that follows for the other slots:
    /// opposites and containers. In a unique slot the first of equal values is kept. It is one
    /// change: the refusals are those of an assignment of the whole list; after each of them, and for
    /// want of memory, the store is unchanged. What a slot holds that is not unique, or is a
    /// containment, is neither copied nor looked through.
    pub fn extend(
        &mut self,
        object: Oid,
        feature: FeatureNo,
        values: &[Value],
    ) -> Result<(), StoreFault>
        requires { IsAssignable self.old object.0 feature.0 values.now }
        ensures ok { OnOk result (write self.old object.0 feature.0 SetOp.Add values.now ≡ Ok self.new) }
        ensures refused { IfErr result (λ fault. fault ≢ StoreFault.NoMemory → write self.old object.0 feature.0 SetOp.Add values.now ≡ Err fault) }
        ensures err { OnErr result (self.new ≡ self.old) }
        ensures stays { StaysIn self.old self.new }
        ensures sound { Sound self.old → Sound self.new }
        ensures inputs { Sound self.old → InputsStay self.old self.new }
    {
        self.is_whole();
        let alloc = self.alloc;
        match self.extend_list(alloc, object, feature, values) {
            Ok(()) => Ok(()),
            Err(fault) => Err(fault),
        }
    }

    /// Whether an assignment of the whole list costs no more: where it must be looked through for
    /// many values, or may repeat some.
    fn looks_through(&self, feature: FeatureNo, values: &[Value]) -> bool
        ensures { IsFalse result → IsTrue (shape_of self.now.metas feature.0).unique → AreUnique self.now }
    {
        if !self.is_unique_feature(feature) {
            return false;
        }
        if !self.is_distinct() {
            return true;
        }
        values.len() > FEW && !is_containment(&self.metas, feature)
    }

    /// As `extend`. What the slot then holds is plain.
    fn extend_list(
        &mut self,
        alloc: Global,
        object: Oid,
        feature: FeatureNo,
        values: &[Value],
    ) -> Result<(), StoreFault>
        requires { IsAssignable self.old object.0 feature.0 values.now }
        ensures ok { OnOk result (write self.old object.0 feature.0 SetOp.Add values.now ≡ Ok self.new) }
        ensures refused { IfErr result (λ fault. fault ≢ StoreFault.NoMemory → write self.old object.0 feature.0 SetOp.Add values.now ≡ Err fault) }
        ensures err { OnErr result (self.new ≡ self.old) }
        ensures plain { Sound self.old → OnOk result (All HasCodeType (new_list self.old.metas feature.0 (slot_of self.old object.0 feature.0 ++ values.now))) }
    {
        self.is_known();
        if self.looks_through(feature, values) {
            match self.extend_whole(alloc, object, feature, values) {
                Ok(()) => return Ok(()),
                Err(fault) => return Err(fault),
            }
        }
        let fresh = self.fresh(alloc, object, feature, values)?;
        if self.is_linked_feature(feature) {
            match self.extend_linked(alloc, object, feature, values, fresh) {
                Ok(()) => return Ok(()),
                Err(fault) => return Err(fault),
            }
        }
        match self.extend_alone(alloc, object, feature, values, fresh) {
            Ok(()) => Ok(()),
            Err(fault) => Err(fault),
        }
    }

    /// As an assignment of the whole list.
    fn extend_whole(
        &mut self,
        alloc: Global,
        object: Oid,
        feature: FeatureNo,
        values: &[Value],
    ) -> Result<(), StoreFault>
        requires can { IsAssignable self.old object.0 feature.0 values.now }
        requires known { IsKnown self.old }
        ensures ok { OnOk result (write self.old object.0 feature.0 SetOp.Add values.now ≡ Ok self.new) }
        ensures refused { IfErr result (λ fault. fault ≢ StoreFault.NoMemory → write self.old object.0 feature.0 SetOp.Add values.now ≡ Err fault) }
        ensures err { OnErr result (self.new ≡ self.old) }
        ensures plain { OnOk result (All HasCodeType (new_list self.old.metas feature.0 (slot_of self.old object.0 feature.0 ++ values.now))) }
    {
        let list = self.extended(alloc, object, feature, values)?;
        match self.assign_list(alloc, object, feature, list.as_slice()) {
            Ok(()) => Ok(()),
            Err(fault) => Err(fault),
        }
    }

    /// The list of a slot, and the values last.
    fn extended(
        &self,
        alloc: Global,
        object: Oid,
        feature: FeatureNo,
        values: &[Value],
    ) -> Result<Values, ListFault>
        ensures { IfOk result (λ list. list ≡ slot_of self.now object.0 feature.0 ++ values.now) }
    {
        let mut list = copied(alloc, self.list(object, feature))?;
        for value in values {
            list.push(value.copy(alloc)?)?;
        }
        Ok(list)
    }

    /// Whether the slot holds no value equal to this one.
    fn is_absent(&self, object: Oid, feature: FeatureNo, value: &Value) -> bool
        ensures { result ≡ is_absent (slot_of self.now object.0 feature.0) value.now }
    {
        !self.has_value(object, feature, value)
    }

    /// The values that the slot does not hold.
    fn absent(
        &self,
        alloc: Global,
        object: Oid,
        feature: FeatureNo,
        values: &[Value],
    ) -> Result<Values, ListFault>
        ensures { IfOk result (λ list. list ≡ filter (is_absent (slot_of self.now object.0 feature.0)) values.now) }
    {
        let mut list = Seq::new(alloc);
        for value in values {
            if self.is_absent(object, feature, value) {
                list.push(value.copy(alloc)?)?;
            }
        }
        Ok(list)
    }

    /// What is put last of the values: in a unique slot those that it does not hold, the first of
    /// equal ones kept.
    fn fresh(
        &self,
        alloc: Global,
        object: Oid,
        feature: FeatureNo,
        values: &[Value],
    ) -> Result<Values, ListFault>
        requires { IsTrue (shape_of self.now.metas feature.0).unique → AreUnique self.now }
        ensures list { IfOk result (λ fresh. new_list self.now.metas feature.0 (slot_of self.now object.0 feature.0 ++ values.now) ≡ slot_of self.now object.0 feature.0 ++ fresh) }
        ensures plain { IfOk result (All HasCodeType) }
    {
        let unique = self.is_unique_feature(feature);
        let news = new_list(alloc, unique, values)?;
        if !unique {
            return Ok(news);
        }
        let fresh = self.absent(alloc, object, feature, news.as_slice())?;
        Ok(fresh)
    }

    /// Puts the objects last among the values that the slot does not hold.
    fn push_added_each(
        &self,
        list: &mut OidList,
        object: Oid,
        feature: FeatureNo,
        values: &[Value],
    ) -> Result<(), ListFault>
        ensures ok { OnOk result (list.new ≡ list.old ++ objects_beyond (slot_of self.now object.0 feature.0) values.now) }
    {
        for value in values {
            self.push_added(list, object, feature, value)?;
        }
        Ok(())
    }

    /// The objects among the values that the slot does not hold.
    fn added_each(
        &self,
        alloc: Global,
        object: Oid,
        feature: FeatureNo,
        values: &[Value],
    ) -> Result<Objects, ListFault>
        ensures { IfOk result (λ added. added ≡ objects_beyond (slot_of self.now object.0 feature.0) values.now) }
    {
        let mut list = Seq::new(alloc);
        self.push_added_each(&mut list, object, feature, values)?;
        let added = Objects::of(alloc, list)?;
        Ok(added)
    }

    /// Where the values are put last in a slot whose changes touch no other.
    fn extend_alone(
        &mut self,
        alloc: Global,
        object: Oid,
        feature: FeatureNo,
        _values: &[Value],
        fresh: Values,
    ) -> Result<(), StoreFault>
        requires can { IsAssignable self.old object.0 feature.0 _values.now }
        requires known { IsKnown self.old }
        requires last { new_list self.old.metas feature.0 (slot_of self.old object.0 feature.0 ++ _values.now) ≡ slot_of self.old object.0 feature.0 ++ fresh }
        requires alone { IsFalse (is_linked self.old.metas feature.0) }
        ensures ok { OnOk result (write self.old object.0 feature.0 SetOp.Add _values.now ≡ Ok self.new) }
        ensures refused { IfErr result (λ fault. fault ≢ StoreFault.NoMemory → write self.old object.0 feature.0 SetOp.Add _values.now ≡ Err fault) }
        ensures err { OnErr result (self.new ≡ self.old) }
    {
        let Some(count) = self.list(object, feature).len().checked_add(fresh.len()) else {
            return Err(StoreFault::NoMemory);
        };
        if exceeds_bound(count, upper(&self.metas, feature)) {
            return Err(StoreFault::TooMany);
        }
        if !self.is_writable(object) {
            return Err(StoreFault::ReadOnly);
        }
        if self.crosses_more(object, feature, fresh.as_slice()) {
            return Err(StoreFault::CrossModel);
        }
        match self.carry_fresh_alone(alloc, object, feature, fresh) {
            Ok(()) => Ok(()),
            Err(_) => Err(StoreFault::NoMemory),
        }
    }

    /// Puts the values last in a slot whose changes touch no other.
    fn carry_fresh_alone(
        &mut self,
        alloc: Global,
        object: Oid,
        feature: FeatureNo,
        fresh: Values,
    ) -> Result<(), ListFault>
        requires { IsLone self.old object.0 feature.0 fresh }
        ensures ok { OnOk result (self.new ≡ store_after self.old (change_to self.old object.0 feature.0 (slot_of self.old object.0 feature.0 ++ fresh))) }
        ensures err { OnErr result (self.new ≡ self.old) }
    {
        push_values(alloc, &self.metas, &mut self.cells, object, feature, fresh)?;
        Ok(())
    }

    /// Where the values are put last in a slot whose changes may touch others.
    fn extend_linked(
        &mut self,
        alloc: Global,
        object: Oid,
        feature: FeatureNo,
        _values: &[Value],
        fresh: Values,
    ) -> Result<(), StoreFault>
        requires can { IsAssignable self.old object.0 feature.0 _values.now }
        requires known { IsKnown self.old }
        requires last { new_list self.old.metas feature.0 (slot_of self.old object.0 feature.0 ++ _values.now) ≡ slot_of self.old object.0 feature.0 ++ fresh }
        ensures ok { OnOk result (write self.old object.0 feature.0 SetOp.Add _values.now ≡ Ok self.new) }
        ensures refused { IfErr result (λ fault. fault ≢ StoreFault.NoMemory → write self.old object.0 feature.0 SetOp.Add _values.now ≡ Err fault) }
        ensures err { OnErr result (self.new ≡ self.old) }
    {
        let added = self.added_each(alloc, object, feature, fresh.as_slice())?;
        let draft = Draft {
            object,
            feature,
            added,
            removed: Objects::new(alloc),
        };
        let Some(count) = self.list(object, feature).len().checked_add(fresh.len()) else {
            return Err(StoreFault::NoMemory);
        };
        match self.check(alloc, &draft, count) {
            Err(fault) => return Err(fault),
            Ok(()) => {}
        }
        if self.crosses_more(object, feature, fresh.as_slice()) {
            return Err(StoreFault::CrossModel);
        }
        let Ok(writes) = self.plan(alloc, &draft) else {
            return Err(StoreFault::NoMemory);
        };
        let released = self.released(alloc, &draft, &writes)?;
        match self.carry_fresh(alloc, &draft, fresh, writes, released.as_slice()) {
            Ok(()) => Ok(()),
            Err(_) => Err(StoreFault::NoMemory),
        }
    }

    /// Carries out a change that puts the values last in the changed slot.
    fn carry_fresh(
        &mut self,
        alloc: Global,
        draft: &Draft,
        fresh: Values,
        writes: Vec<Write>,
        released: &[Oid],
    ) -> Result<(), ListFault>
        requires { Ready self.old draft.now (slot_of self.old draft.now.object.0 draft.now.feature.0 ++ fresh) writes.items released.now }
        ensures ok { OnOk result (self.new ≡ store_after self.old (change_to self.old draft.now.object.0 draft.now.feature.0 (slot_of self.old draft.now.object.0 draft.now.feature.0 ++ fresh))) }
        ensures err { OnErr result (self.new ≡ self.old) }
    {
        let in_model = self.is_in_model(draft.object);
        push_values(
            alloc,
            &self.metas,
            &mut self.cells,
            draft.object,
            draft.feature,
            fresh,
        )?;
        self.marks = marks_changed(&self.metas, self.marks, in_model, draft.feature);
        settle(&self.metas, &mut self.cells, draft, writes, released);
        Ok(())
    }
}
