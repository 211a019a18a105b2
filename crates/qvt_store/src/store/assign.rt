//! Changes of slots, with all that follows for the other slots.

ghost use Rattle.std.specs.Prelude.{◌≡◌, ◌≢◌, ◌++◌, ◌&&◌, ◌||◌, not, All, Ok, Err, IfOk, IfErr, OnOk, OnErr};
ghost use Rattle.qvt_slots.specs.Change.{is_linked};
ghost use Rattle.qvt_slots.specs.Contents.{slot_of, with_slot};
ghost use Rattle.qvt_metamodel.specs.Metamodels.{shape_of};
ghost use Rattle.qvt_slots.specs.Assign.{assign, change_to, store_after};
ghost use Rattle.qvt_slots.specs.Types.{IsAssignable, IsAttributeChange, HasCodeType};
ghost use Rattle.qvt_slots.specs.Repeats.{new_list};
ghost use Rattle.qvt_slots.specs.Writes.{released_by, released_of};
ghost use Rattle.qvt_store.specs.Ready.{IsKnown, Ready, StaysElsewhere};
ghost use Rattle.qvt_store_laws.specs.Sound.{Sound};
ghost use Rattle.qvt_store_laws.specs.Stay.{InputsStay, StaysIn};

use crate::store::Store;
use qvt_base::list_fault::ListFault;
use qvt_base::lists::OidList;
use qvt_base::numbers::{FeatureNo, Oid};
use qvt_base::seq::Seq;
use qvt_slots::cell::Marks;
use qvt_slots::commit::{Write, settle};
use qvt_slots::draft::Draft;
use qvt_slots::fault::StoreFault;
use qvt_slots::features::{is_containment, is_linked, is_unique};
use qvt_slots::metas::Metas;
use qvt_slots::object_list::{beyond, push_beyond};
use qvt_slots::put::put;
use qvt_slots::values::new_list;
use qvt_value::value::{Value, Values};
use std::alloc::Global;

impl Store {
    /// Puts the objects last that the write takes out of a containment slot, or leaves there.
    fn release(&self, alloc: Global, list: &mut OidList, write: &Write) -> Result<(), ListFault>
        ensures { OnOk result (list.new ≡ list.old ++ released_by self.now.metas (slot_of self.now) write.now) }
    {
        if is_containment(&self.metas, write.feature) {
            push_beyond(alloc, list, &[], self.list(write.object, write.feature))?;
        }
        Ok(())
    }

    /// The objects whose containment slots change.
    pub(super) fn released(
        &self,
        alloc: Global,
        draft: &Draft,
        writes: &[Write],
    ) -> Result<OidList, ListFault>
        ensures { IfOk result (λ list. list ≡ released_of self.now.metas (slot_of self.now) draft.now writes.now) }
    {
        let mut list = Seq::new(alloc);
        if is_containment(&self.metas, draft.feature) {
            list.extend(draft.removed.as_slice())?;
        }
        for write in writes {
            self.release(alloc, &mut list, write)?;
        }
        Ok(list)
    }

    /// A law: what the store's own calls ask of it. It tells the fact and does nothing.
    pub(super) fn is_known(&self)
        ensures { IsKnown self.now }
    {
        let _ = &self.metas;
    }

    pub(super) fn is_unique_feature(&self, feature: FeatureNo) -> bool
        ensures value { result ≡ (shape_of self.now.metas feature.0).unique }
        ensures known { IsKnown self.now }
    {
        is_unique(&self.metas, feature)
    }

    /// Carries out a change.
    fn carry_out(&mut self, draft: &Draft, items: Values, writes: Vec<Write>, released: &[Oid])
        requires { Ready self.old draft.now items writes.items released.now }
        ensures after { self.new ≡ store_after self.old (change_to self.old draft.now.object.0 draft.now.feature.0 items) }
        ensures plain { StaysElsewhere (change_to self.old draft.now.object.0 draft.now.feature.0 items) → self.new ≡ with_slot self.old draft.now.object.0 draft.now.feature.0 items }
    {
        let in_model = self.is_in_model(draft.object);
        self.marks = marks_changed(&self.metas, self.marks, in_model, draft.feature);
        put(
            &self.metas,
            &mut self.cells,
            draft.object,
            draft.feature,
            items,
        );
        settle(&self.metas, &mut self.cells, draft, writes, released);
    }

    /// As `assign`. What is put in the slot is plain.
    pub(super) fn assign_list(
        &mut self,
        alloc: Global,
        object: Oid,
        feature: FeatureNo,
        values: &[Value],
    ) -> Result<(), StoreFault>
        requires { IsAssignable self.old object.0 feature.0 values.now }
        ensures ok { OnOk result (assign self.old object.0 feature.0 values.now ≡ Ok self.new) }
        ensures plain { OnOk result (All HasCodeType (new_list self.old.metas feature.0 values.now)) }
        ensures refused { IfErr result (λ fault. fault ≢ StoreFault.NoMemory → assign self.old object.0 feature.0 values.now ≡ Err fault) }
        ensures err { OnErr result (self.new ≡ self.old) }
        ensures set { IsAttributeChange self.old object.0 feature.0 values.now → OnOk result (self.new ≡ with_slot self.old object.0 feature.0 values.now) }
        ensures memory { IsAttributeChange self.old object.0 feature.0 values.now → IfErr result (λ fault. fault ≡ StoreFault.NoMemory) }
    {
        let unique = self.is_unique_feature(feature);
        let items = new_list(alloc, unique, values)?;
        let added = beyond(alloc, self.list(object, feature), items.as_slice())?;
        let removed = beyond(alloc, items.as_slice(), self.list(object, feature))?;
        let draft = Draft {
            object,
            feature,
            added,
            removed,
        };
        match self.check(alloc, &draft, items.len()) {
            Err(fault) => return Err(fault),
            Ok(()) => {}
        }
        if self.crosses(object, items.as_slice()) {
            return Err(StoreFault::CrossModel);
        }
        let Ok(writes) = self.plan(alloc, &draft) else {
            return Err(StoreFault::NoMemory);
        };
        let released = self.released(alloc, &draft, &writes)?;
        self.carry_out(&draft, items, writes, released.as_slice());
        Ok(())
    }

    /// Sets a slot, with all that follows for the other slots: opposites and containers. The
    /// refusals are judged on the store as it would be. After each of them, and for want of memory,
    /// the store is unchanged. A single attribute in a writable extent is set alone, and refused only
    /// for want of memory.
    pub fn assign(
        &mut self,
        object: Oid,
        feature: FeatureNo,
        values: &[Value],
    ) -> Result<(), StoreFault>
        requires { IsAssignable self.old object.0 feature.0 values.now }
        ensures ok { OnOk result (assign self.old object.0 feature.0 values.now ≡ Ok self.new) }
        ensures refused { IfErr result (λ fault. fault ≢ StoreFault.NoMemory → assign self.old object.0 feature.0 values.now ≡ Err fault) }
        ensures err { OnErr result (self.new ≡ self.old) }
        ensures set { IsAttributeChange self.old object.0 feature.0 values.now → OnOk result (self.new ≡ with_slot self.old object.0 feature.0 values.now) }
        ensures memory { IsAttributeChange self.old object.0 feature.0 values.now → IfErr result (λ fault. fault ≡ StoreFault.NoMemory) }
        ensures stays { StaysIn self.old self.new }
        ensures sound { Sound self.old → Sound self.new }
        ensures inputs { Sound self.old → InputsStay self.old self.new }
    {
        self.is_whole();
        let alloc = self.alloc;
        match self.assign_list(alloc, object, feature, values) {
            Ok(()) => Ok(()),
            Err(fault) => Err(fault),
        }
    }
}

/// What is known after a change of a slot whose object is in a model or not.
pub(super) fn marks_changed(
    metas: &Metas,
    marks: Marks,
    in_model: bool,
    feature: FeatureNo,
) -> Marks
    ensures distinct { result.distinct ≡ marks.distinct }
    ensures own { result.own ≡ (marks.own && (in_model || not (is_linked metas.now feature.0))) }
{
    Marks {
        distinct: marks.distinct,
        own: marks.own && (in_model || !is_linked(metas, feature)),
    }
}
