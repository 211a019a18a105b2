//! A model loaded: its objects are added, their slots are set, and their ids are told.

ghost use Rattle.std.specs.Prelude.{◌≡◌, ℕ, ◌<◌, length, if◌then◌else◌, IfErr, OnOk};
ghost use Rattle.qvt_store.specs.Contents.{with_new, with_slot};
ghost use Rattle.qvt_store.specs.Place.{IsPlaceable};
ghost use Rattle.qvt_store.specs.Sound.{IsClassFor, Sound};
ghost use Rattle.qvt_model.specs.IdTables.{id_in};
ghost use Rattle.qvt_store.specs.Stay.{InputsStay, StaysIn};
ghost use Rattle.qvt_model.specs.Loaded.{loaded, id_told, all_told, AreTold, IsLoadable, MembersStay, TellsAll, TellsNoOther};
ghost use Rattle.qvt_model.specs.Conforming.{Conforms};
ghost use Rattle.qvt_model.specs.Steps.{objects_added, CanAdd, slot_values, put_slots, put_objects, with_objects, CanPutSlots, CanPutObjects};

use crate::data::{ModelData, ModelFault, ObjectData, SlotData};
use crate::id_table::IdTable;
use crate::values::{numbered, values_of};
use qvt_base::copied::Copied;
use qvt_base::list_fault::ListFault;
use qvt_base::numbers::{ClassNo, Oid};
use qvt_store::store::Store;
use std::alloc::Global;

/// Adds one object.
fn add_object(store: &mut Store, class: ClassNo, extent: u32) -> Result<(), ListFault>
    requires { IsClassFor store.old class.0 extent }
    ensures { OnOk result (store.new ≡ with_new store.old class.0 extent) }
{
    match store.add_object(class, extent) {
        Ok(_) => Ok(()),
        Err(_) => Err(ListFault::NoMemory),
    }
}

/// Adds the objects, in order.
fn add_objects(store: &mut Store, objects: &[ObjectData], extent: u32) -> Result<(), ListFault>
    requires { CanAdd store.old extent objects.now }
    ensures { OnOk result (store.new ≡ objects_added store.old extent objects.now) }
{
    for object in objects {
        add_object(store, object.class, extent)?;
    }
    Ok(())
}

/// Sets one slot.
fn place_slot(
    alloc: Global,
    store: &mut Store,
    first: u32,
    object: Oid,
    slot: &SlotData,
) -> Result<(), ListFault>
    requires { IsPlaceable store.old object.0 slot.now.feature.0 (slot_values first slot.now) }
    ensures { OnOk result (store.new ≡ with_slot store.old object.0 slot.now.feature.0 (slot_values first slot.now)) }
{
    let values = values_of(alloc, first, slot.items.as_slice())?;
    match store.place(object, slot.feature, values.as_slice()) {
        Ok(()) => Ok(()),
        Err(_) => Err(ListFault::NoMemory),
    }
}

/// Sets the slots of an object.
fn place_slots(
    alloc: Global,
    store: &mut Store,
    first: u32,
    object: Oid,
    slots: &[SlotData],
) -> Result<(), ListFault>
    requires { CanPutSlots store.old.metas store.old.extents first object.0 store.old.objects slots.now }
    ensures { OnOk result (store.new ≡ with_objects store.old (put_slots store.old.metas first object.0 store.old.objects slots.now)) }
{
    for slot in slots {
        place_slot(alloc, store, first, object, slot)?;
    }
    Ok(())
}

/// Sets the slots of all objects.
fn place_objects(
    alloc: Global,
    store: &mut Store,
    first: u32,
    objects: &[ObjectData],
) -> Result<(), ListFault>
    requires { CanPutObjects store.old.metas store.old.extents first first store.old.objects objects.now }
    ensures { OnOk result (store.new ≡ with_objects store.old (put_objects store.old.metas first first store.old.objects objects.now)) }
{
    for (i, object) in objects.iter().enumerate() {
        let number = numbered(first, i)?;
        place_slots(alloc, store, first, number, object.slots.as_slice())?;
    }
    Ok(())
}

/// Tells the ids of the objects.
fn tell_ids(
    alloc: Global,
    ids: &mut IdTable,
    first: u32,
    objects: &[ObjectData],
) -> Result<(), ListFault>
    ensures told { OnOk result ((x : ℕ) → id_in ids.new x ≡ id_told first objects.now x (id_in ids.old x)) }
    ensures exact { OnOk result (ids.new ≡ all_told first objects.now ids.old) }
{
    for (i, object) in objects.iter().enumerate() {
        let number = numbered(first, i)?;
        let id = object.id.copy(alloc)?;
        ids.set(number, id)?;
    }
    Ok(())
}

/// Loads a model that conforms into an extent without objects: the extent then holds exactly the data, in order, numbered after
/// the store's objects, and the table tells their ids. All else is as before, and a sound store stays sound. It is refused only
/// for want of memory, and then the store and the table are to be given up.
pub fn load(
    alloc: Global,
    store: &mut Store,
    ids: &mut IdTable,
    model: &ModelData,
    extent: u32,
) -> Result<(), ModelFault>
    requires loadable { IsLoadable store.old extent model.now.objects }
    requires conforms { Conforms store.old.metas model.now.objects }
    ensures store { OnOk result (store.new ≡ loaded store.old extent model.now.objects) }
    ensures ids { OnOk result (AreTold store.old model.now.objects ids.old ids.new) }
    ensures table { OnOk result (ids.new ≡ all_told (length store.old.objects) model.now.objects ids.old) }
    ensures stays { OnOk result (StaysIn store.old store.new) }
    ensures inputs { OnOk result (InputsStay store.old store.new) }
    ensures others { OnOk result (MembersStay store.old store.new extent) }
    ensures told { TellsAll store.old ids.old → OnOk result (TellsAll store.new ids.new) }
    ensures no_other { TellsNoOther store.old ids.old → OnOk result (TellsNoOther store.new ids.new) }
    ensures sound { Sound store.old → OnOk result (Sound store.new) }
    ensures refused { IfErr result (λ fault. fault ≡ ModelFault.NoMemory) }
{
    let first = store.len();
    store.is_whole();
    let objects = model.objects.as_slice();
    add_objects(store, objects, extent)?;
    place_objects(alloc, store, first, objects)?;
    tell_ids(alloc, ids, first, objects)?;
    Ok(())
}
