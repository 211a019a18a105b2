//! The walk along containers.

ghost use Rattle.std.specs.Prelude.{◌<◌, ◌↔◌, length, IsTrue};
ghost use Rattle.qvt_slots.specs.Contents.{slot_in};
ghost use Rattle.qvt_slots.specs.Cells.{AreWhole, instances};
ghost use Rattle.qvt_slots.specs.Walk.{SomeOver};

use crate::cell::Cell;
use crate::values::is_among;
use qvt_base::numbers::Oid;
use qvt_metas::metas::Metas;

/// Whether the object, or one around it, is among these.
pub fn is_under(metas: &Metas, cells: &Vec<Cell>, objects: &[Oid], start: Oid) -> bool
    requires live { start.0 < length cells.now.items }
    requires whole { AreWhole metas.now cells.now.items }
    ensures { IsTrue result ↔ SomeOver metas.now (slot_in metas.now (instances cells.now.items)) objects.now start.0 }
{
    let _metas = metas;
    let mut at = start;
    while !is_among(objects, at) {
        match cells[at.0 as usize].holder {
            None => return false,
            Some(holder) => at = holder.object,
        }
    }
    true
}
