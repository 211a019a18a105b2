//! Slots set in the cells of a store.

ghost use Rattle.std.specs.Prelude.{◌≡◌, ◌<◌, length, IsTrue, IsFalse, IfNone, IfSome};
ghost use Rattle.qvt_metas.specs.Metamodels.{has_feature, features_of};
ghost use Rattle.qvt_slots.specs.Cells.{HaveSlots, IsPut, IsPlaceOf, IsSameCells, instance_in, instances};
ghost use Rattle.std.specs.Prelude.{◌++◌, ◌∷◌, [], OnOk, OnErr};
ghost use Rattle.qvt_slots.specs.Contents.{slot_in};

use crate::cell::Cell;
use qvt_base::list_fault::ListFault;
use qvt_base::numbers::{ClassNo, FeatureNo, Oid};
use qvt_base::seq::Seq;
use qvt_metas::metas::Metas;
use qvt_value::value::{Value, Values};
use std::alloc::Global;
use std::mem::replace;

/// The place of a feature of a class among its features.
pub fn place_of(metas: &Metas, class: ClassNo, feature: FeatureNo) -> usize
    requires { IsTrue (has_feature metas.now class.0 feature.0) }
    ensures { IsPlaceOf (features_of metas.now class.0) feature.0 result }
{
    match metas.place(class, feature) {
        Some(place) => place,
        None => unreachable!(),
    }
}

/// The place of a feature among those of a class, if it is there.
pub fn find_place(metas: &Metas, class: ClassNo, feature: FeatureNo) -> Option<usize>
    ensures none { IfNone result (IsFalse (has_feature metas.now class.0 feature.0)) }
    ensures some { IfSome result (λ place. IsPlaceOf (features_of metas.now class.0) feature.0 place) }
{
    metas.place(class, feature)
}

/// Sets one slot.
pub fn put(metas: &Metas, cells: &mut Vec<Cell>, object: Oid, feature: FeatureNo, items: Values)
    requires live { object.0 < length cells.old.items }
    requires there { IsTrue (has_feature metas.now (instance_in cells.old.items object.0).class feature.0) }
    requires have_slots { HaveSlots metas.now cells.old.items }
    ensures { IsPut metas.now cells.old.items cells.new.items object.0 feature.0 items }
{
    let cell = &mut cells[object.0 as usize];
    let place = place_of(metas, cell.class, feature);
    cell.slots[place] = items;
}

/// Puts a value last in one slot.
pub fn push_value(
    metas: &Metas,
    cells: &mut Vec<Cell>,
    object: Oid,
    feature: FeatureNo,
    value: Value,
) -> Result<(), ListFault>
    requires live { object.0 < length cells.old.items }
    requires there { IsTrue (has_feature metas.now (instance_in cells.old.items object.0).class feature.0) }
    requires have_slots { HaveSlots metas.now cells.old.items }
    ensures ok { OnOk result (IsPut metas.now cells.old.items cells.new.items object.0 feature.0 (slot_in metas.now (instances cells.old.items) object.0 feature.0 ++ value ∷ [])) }
    ensures err { OnErr result (IsSameCells cells.old.items cells.new.items) }
{
    let cell = &mut cells[object.0 as usize];
    let place = place_of(metas, cell.class, feature);
    let list = &mut cell.slots[place];
    list.push(value)?;
    Ok(())
}

/// Puts the others last. A refused call changes nothing.
fn join(alloc: Global, list: &mut Values, others: Values) -> Result<(), ListFault>
    ensures ok { OnOk result (list.new ≡ list.old ++ others) }
    ensures err { OnErr result (list.new ≡ list.old) }
{
    let mut items = replace(list, Seq::new(alloc)).into_vec();
    let mut others = others.into_vec();
    let joined = items.append(&mut others);
    *list = Seq::from_vec(items);
    match joined {
        Ok(()) => Ok(()),
        Err(_) => Err(ListFault::NoMemory),
    }
}

/// Puts values last in one slot.
pub fn push_values(
    alloc: Global,
    metas: &Metas,
    cells: &mut Vec<Cell>,
    object: Oid,
    feature: FeatureNo,
    values: Values,
) -> Result<(), ListFault>
    requires live { object.0 < length cells.old.items }
    requires there { IsTrue (has_feature metas.now (instance_in cells.old.items object.0).class feature.0) }
    requires have_slots { HaveSlots metas.now cells.old.items }
    ensures ok { OnOk result (IsPut metas.now cells.old.items cells.new.items object.0 feature.0 (slot_in metas.now (instances cells.old.items) object.0 feature.0 ++ values)) }
    ensures err { OnErr result (IsSameCells cells.old.items cells.new.items) }
{
    let cell = &mut cells[object.0 as usize];
    let place = place_of(metas, cell.class, feature);
    let list = &mut cell.slots[place];
    join(alloc, list, values)?;
    Ok(())
}
