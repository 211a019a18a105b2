ghost use Rattle.std.specs.Prelude.{◌≡◌, IfOk};
ghost use Rattle.std.specs.List.{list_any};
ghost use Rattle.qvt_model.specs.Reading.{is_dangling, slots_dangling, dangling};

use crate::data::{Datum, ModelFault, ObjectData, SlotData};
use qvt_base::list_fault::ListFault;
use qvt_base::text::Text;
use qvt_metas::metas::Metas;
use std::alloc::Global;

/// Whether the item refers to none of so many objects.
fn is_dangling(count: usize, item: &Datum) -> bool
    ensures { result ≡ is_dangling count item.now }
{
    match item {
        Datum::Ref(place) => *place as usize >= count,
        Datum::Bool(_) => false,
        Datum::Int(_) => false,
        Datum::Str(_) => false,
        Datum::Literal(_) => false,
    }
}

/// Whether one of the items refers to none of so many objects.
fn has_dangling(count: usize, items: &[Datum]) -> bool
    ensures { result ≡ list_any (is_dangling count) items.now }
{
    for item in items {
        if is_dangling(count, item) {
            return true;
        }
    }
    false
}

/// The first slot of the object that refers to none of so many objects.
fn slots_dangling(
    alloc: Global,
    metas: &Metas,
    count: usize,
    id: &str,
    slots: &[SlotData],
) -> Result<Option<ModelFault>, ListFault>
    ensures { IfOk result (λ o. o ≡ slots_dangling metas.now count id.now slots.now) }
{
    for slot in slots {
        if has_dangling(count, slot.items.as_slice()) {
            let name = Text::from_str(alloc, metas.feature_name(slot.feature))?;
            return Ok(Some(ModelFault::DanglingId(Text::from_str(alloc, id)?, name)));
        }
    }
    Ok(None)
}

/// The first slot of the objects that refers to none of so many.
pub fn dangling(
    alloc: Global,
    metas: &Metas,
    count: usize,
    objects: &[ObjectData],
) -> Result<Option<ModelFault>, ListFault>
    ensures { IfOk result (λ o. o ≡ dangling metas.now count objects.now) }
{
    for object in objects {
        let found = slots_dangling(
            alloc,
            metas,
            count,
            object.id.as_str(),
            object.slots.as_slice(),
        )?;
        if let Some(fault) = found {
            return Ok(Some(fault));
        }
    }
    Ok(None)
}
