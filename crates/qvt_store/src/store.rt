ghost use Rattle.std.specs.Prelude.{◌≡◌, ◌<◌, [], length, IsTrue, IfOk, IfErr, OnOk, OnErr, IfSome, ℕ};
ghost use Rattle.qvt_slots.specs.Slots.{Contains, has};
ghost use Rattle.qvt_slots.specs.Cells.{holder_in};
ghost use Rattle.qvt_metamodel.specs.Metamodels.{has_feature, is_containment};
ghost use Rattle.qvt_slots.specs.Contents.{AreNamed, is_live, is_extent, class_of, extent_of, slot_of, members_of, with_new};
ghost use Rattle.qvt_slots.specs.Limits.{most_objects};
ghost use Rattle.qvt_slots.specs.Members.{AreEmpty};
ghost use Rattle.qvt_store.specs.Fault.{IsAddFault};
ghost use Rattle.qvt_store_laws.specs.Sound.{IsClassFor, Sound};
ghost use Rattle.qvt_store_laws.specs.Stay.{InputsStay, IsStore, StaysIn};

mod append;
mod assign;
mod change;
mod check;
mod extend;
mod place;
mod plan;
mod write;

use crate::limits::MOST_OBJECTS;
use qvt_base::copied::Copied;
use qvt_base::list_fault::ListFault;
use qvt_base::lists::OidList;
use qvt_base::numbers::{ClassNo, FeatureNo, Oid};
use qvt_base::seq::Seq;
use qvt_slots::add::{add_cell, empty_slots};
use qvt_slots::cell::{Cell, Holder, Marks};
use qvt_slots::extent::{Extent, ExtentList};
use qvt_slots::fault::StoreFault;
use qvt_slots::metas::Metas;
use qvt_slots::put::{find_place, place_of};
use qvt_store_laws::law::{
    add_keeps_sound, add_leaves_inputs, add_stays, inputs_stay_is_reflexive, new_is_sound,
    stays_is_reflexive,
};
use qvt_value::value::Value;
use std::alloc::Global;
use std::marker::Model;

/// Objects of numbered extents with their slots. Objects are numbered from 0 in the order in which
/// they are added.
pub struct Store {
    alloc: Global,
    metas: Metas,
    extents: ExtentList,
    cells: Vec<Cell>,
    members: Vec<OidList>,
    marks: Marks,
}

impl Drop for Store {
    fn drop(self) {
        let Store {
            alloc,
            metas,
            extents,
            cells,
            members,
            marks,
        } = self;
    }
}

impl Model for Store {
    ghost use Rattle.qvt_slots.specs.Contents.{Contents};
    ghost use Rattle.std.specs.Coded.{codes};
    ghost use Rattle.qvt_value.specs.contracts.value.Value as value;

    ghost Value = { Contents };

    ghost coded = { Prim.hlevel (codes, value.the_row.coded) };

    ghost use Rattle.qvt_slots.specs.Cells.{contents_of, IsStoreKept};

    ghost view = { λ s. contents_of s.metas s.extents s.cells.items };

    ghost invariant = { λ s. IsStoreKept s.metas s.extents s.cells.items s.members.items s.marks };
}

impl Store {
    /// A store with no objects.
    pub fn new(alloc: Global, metas: &Metas, extents: &ExtentList) -> Result<Store, StoreFault>
        requires { AreNamed metas.now extents.now }
        ensures ok { IfOk result (λ store. store ≡ record { metas = metas.now; extents = extents.now; objects = [] }) }
        ensures sound { IfOk result Sound }
        ensures err { IfErr result (λ fault. fault ≡ StoreFault.NoMemory) }
    {
        new_is_sound();
        let metas = metas.copy(alloc)?;
        metas.are_well_formed();
        let extents = extents.copy(alloc)?;
        let members = empty_lists(alloc, extents.as_slice())?;
        Ok(Store {
            alloc,
            metas,
            extents,
            cells: Vec::new(alloc),
            members,
            marks: Marks {
                distinct: true,
                own: true,
            },
        })
    }

    /// How many objects there are.
    pub fn len(&self) -> u32
        ensures { result ≡ length self.now.objects }
    {
        self.cells.len() as u32
    }

    pub fn metas(&self) -> &Metas
        ensures { result.now ≡ self.now.metas }
    {
        &self.metas
    }

    /// What the store was made with.
    pub fn extents(&self) -> &ExtentList
        ensures { result.now ≡ self.now.extents }
    {
        &self.extents
    }

    /// A law: what every store keeps. It tells the fact and does nothing.
    pub fn is_whole(&self)
        ensures { IsStore self.now }
    {
        let _ = &self.metas;
    }

    pub fn class_of(&self, object: Oid) -> ClassNo
        requires { IsTrue (is_live self.now object.0) }
        ensures { result.0 ≡ class_of self.now object.0 }
    {
        self.cells[object.0 as usize].class
    }

    pub fn extent_of(&self, object: Oid) -> u32
        requires { IsTrue (is_live self.now object.0) }
        ensures { result ≡ extent_of self.now object.0 }
    {
        self.cells[object.0 as usize].extent
    }

    /// The objects of an extent, in order.
    pub fn extent(&self, extent: u32) -> &[Oid]
        requires { IsTrue (is_extent self.now extent) }
        ensures { result.now ≡ members_of self.now extent }
    {
        self.members[extent as usize].as_slice()
    }

    /// What an object holds for a feature of its class.
    pub fn slot(&self, object: Oid, feature: FeatureNo) -> &[Value]
        requires live { IsTrue (is_live self.now object.0) }
        requires there { IsTrue (has_feature self.now.metas (class_of self.now object.0) feature.0) }
        ensures { result.now ≡ slot_of self.now object.0 feature.0 }
    {
        let cell = &self.cells[object.0 as usize];
        let place = place_of(&self.metas, cell.class, feature);
        cell.slots[place].as_slice()
    }

    /// The list of a slot, also of a pair that is no slot, which has none.
    fn list(&self, object: Oid, feature: FeatureNo) -> &[Value]
        ensures { result.now ≡ slot_of self.now object.0 feature.0 }
    {
        let at = object.0 as usize;
        if at < self.cells.len() {
            let cell = &self.cells[at];
            if let Some(place) = find_place(&self.metas, cell.class, feature) {
                return cell.slots[place].as_slice();
            }
        }
        &[]
    }

    /// The containment slot that an object stands in.
    fn holder(&self, object: Oid) -> Option<Holder>
        ensures some { IfSome result (λ h. IsTrue (is_containment self.now.metas h.feature.0) × IsTrue (has (slot_of self.now h.object.0 h.feature.0) object.0)) }
        ensures only { (x f : ℕ) → IsTrue (is_containment self.now.metas f) → IsTrue (has (slot_of self.now x f) object.0) → result ≡ Some (holder_in x f) }
    {
        let at = object.0 as usize;
        if at < self.cells.len() {
            self.cells[at].holder
        } else {
            None
        }
    }

    /// The object that contains this one.
    pub fn container(&self, object: Oid) -> Option<Oid>
        requires { IsTrue (is_live self.now object.0) }
        ensures some { IfSome result (λ x. Contains self.now.metas (slot_of self.now) x.0 object.0) }
        ensures only { (x : ℕ) → Contains self.now.metas (slot_of self.now) x object.0 → result ≡ Some (record { 0 = x }) }
    {
        match self.holder(object) {
            None => None,
            Some(holder) => Some(holder.object),
        }
    }

    /// Adds an object with empty slots, of a concrete class of the extent's metamodel. A refused
    /// call changes nothing.
    pub fn add_object(&mut self, class: ClassNo, extent: u32) -> Result<Oid, StoreFault>
        requires { IsClassFor self.old class.0 extent }
        ensures number { IfOk result (λ object. object.0 ≡ length self.old.objects) }
        ensures ok { OnOk result (self.new ≡ with_new self.old class.0 extent) }
        ensures room { OnOk result (length self.old.objects < most_objects) }
        ensures refused { IfErr result (λ fault. IsAddFault (length self.old.objects) fault) }
        ensures err { OnErr result (self.new ≡ self.old) }
        ensures stays { StaysIn self.old self.new }
        ensures sound { Sound self.old → Sound self.new }
        ensures inputs { InputsStay self.old self.new }
    {
        stays_is_reflexive();
        inputs_stay_is_reflexive();
        add_stays();
        add_leaves_inputs();
        add_keeps_sound();
        let count = self.cells.len();
        if count >= MOST_OBJECTS {
            return Err(StoreFault::TooManyObjects);
        }
        let object = Oid(count as u32);
        let slots = empty_slots(self.alloc, self.metas.features(class))?;
        let cell = Cell {
            class,
            extent,
            slots,
            holder: None,
        };
        add_cell(&mut self.cells, &mut self.members, cell, object)?;
        Ok(object)
    }
}

/// An empty list for each extent.
fn empty_lists(alloc: Global, extents: &[Extent]) -> Result<Vec<OidList>, ListFault>
    ensures { IfOk result (λ lists. AreEmpty (length extents.now) lists.items) }
{
    let mut lists = Seq::new(alloc);
    for _extent in extents {
        lists.push(Seq::new(alloc))?;
    }
    Ok(lists.into_vec())
}
