//! What each object holds in its containment slots.

ghost use Rattle.std.specs.Prelude.{◌≡◌, ◌++◌, IfOk, OnOk};
ghost use Rattle.qvt_conform.specs.Containment.{refs_of, refs, contents_of_slot, contents_of_slots, contents_of_object, contents};

use qvt_base::list_fault::ListFault;
use qvt_base::seq::Seq;
use qvt_cycle::lists::Positions;
use qvt_metas::metas::Metas;
use qvt_model::data::{Datum, ObjectData, SlotData};
use std::alloc::Global;

/// Puts the object that an item is last.
fn push_ref(contents: &mut Positions, item: &Datum) -> Result<(), ListFault>
    ensures { OnOk result (contents.new ≡ contents.old ++ refs_of item.now) }
{
    match item {
        Datum::Ref(place) => contents.push(*place),
        Datum::Bool(_) => Ok(()),
        Datum::Int(_) => Ok(()),
        Datum::Str(_) => Ok(()),
        Datum::Literal(_) => Ok(()),
    }
}

fn push_refs(contents: &mut Positions, items: &[Datum]) -> Result<(), ListFault>
    ensures { OnOk result (contents.new ≡ contents.old ++ refs items.now) }
{
    for item in items {
        push_ref(contents, item)?;
    }
    Ok(())
}

fn push_slot(metas: &Metas, contents: &mut Positions, slot: &SlotData) -> Result<(), ListFault>
    ensures { OnOk result (contents.new ≡ contents.old ++ contents_of_slot metas.now slot.now) }
{
    if metas.shape(slot.feature).containment {
        push_refs(contents, slot.items.as_slice())
    } else {
        Ok(())
    }
}

fn contents_of_object(
    alloc: Global,
    metas: &Metas,
    slots: &[SlotData],
) -> Result<Positions, ListFault>
    ensures { IfOk result (λ xs. xs ≡ contents_of_slots metas.now slots.now) }
{
    let mut contents = Seq::new(alloc);
    for slot in slots {
        push_slot(metas, &mut contents, slot)?;
    }
    Ok(contents)
}

/// What each object holds in its containment slots, in order.
pub fn contents(
    alloc: Global,
    metas: &Metas,
    objects: &[ObjectData],
) -> Result<Seq<Positions>, ListFault>
    ensures { IfOk result (λ cs. cs ≡ contents metas.now objects.now) }
{
    let mut all = Seq::new(alloc);
    for object in objects {
        all.push(contents_of_object(alloc, metas, object.slots.as_slice())?)?;
    }
    Ok(all)
}
