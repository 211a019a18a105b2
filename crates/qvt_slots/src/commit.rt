//! A change carried out in the cells. It takes no memory.

ghost use Rattle.std.specs.Prelude.{◌<◌, ◌∷◌, [], length, IsTrue, All};
ghost use Rattle.qvt_metas.specs.Metamodels.{is_containment};
ghost use Rattle.qvt_slots.specs.Slots.{has};
ghost use Rattle.qvt_slots.specs.Change.{among_objects};
ghost use Rattle.qvt_slots.specs.Cells.{HaveSlots};
ghost use Rattle.qvt_slots.specs.Writes.{IsWrite, AreWritten, IsHeld, AllLive, AreHeld, AreHeldBy, AreHeldHere, IsSettled};

use crate::cell::{Cell, Holder};
use crate::draft::Draft;
use crate::put::put;
use crate::values::is_object_of;
use qvt_base::numbers::{FeatureNo, Oid};
use qvt_metas::metas::Metas;
use qvt_value::value::{Value, Values};

/// A slot with its new list.
#[derive(Drop)]
pub struct Write {
    pub object: Oid,
    pub feature: FeatureNo,
    pub items: Values,
}

/// Carries out writes in order.
pub fn put_all(metas: &Metas, cells: &mut Vec<Cell>, writes: Vec<Write>)
    requires have_slots { HaveSlots metas.now cells.old.items }
    requires writes { All (IsWrite metas.now cells.old.items) writes.items }
    ensures { AreWritten metas.now cells.old.items cells.new.items writes.items }
{
    for write in writes {
        put(metas, cells, write.object, write.feature, write.items);
    }
}

/// Sets the holder of an object.
fn hold(cells: &mut Vec<Cell>, child: Oid, holder: Option<Holder>)
    requires { child.0 < length cells.old.items }
    ensures { IsHeld cells.old.items cells.new.items child.0 holder }
{
    let cell = &mut cells[child.0 as usize];
    cell.holder = holder;
}

/// Sets the holder of each of these objects.
pub fn hold_each(cells: &mut Vec<Cell>, objects: &[Oid], holder: Option<Holder>)
    requires { AllLive cells.old.items (among_objects objects.now) }
    ensures { AreHeld cells.old.items cells.new.items (among_objects objects.now) holder }
{
    for object in objects {
        hold(cells, *object, holder);
    }
}

/// Sets the holder of each object of the list.
pub fn hold_items(cells: &mut Vec<Cell>, values: &[Value], holder: Option<Holder>)
    requires { AllLive cells.old.items (has values.now) }
    ensures { AreHeld cells.old.items cells.new.items (has values.now) holder }
{
    for value in values {
        hold_value(cells, value, holder);
    }
}

fn hold_value(cells: &mut Vec<Cell>, value: &Value, holder: Option<Holder>)
    requires { AllLive cells.old.items (has (value.now ∷ [])) }
    ensures { AreHeld cells.old.items cells.new.items (has (value.now ∷ [])) holder }
{
    match value {
        Value::Obj(child) => hold(cells, *child, holder),
        _ => {}
    }
}

pub fn hold_write(metas: &Metas, cells: &mut Vec<Cell>, write: &Write)
    requires { IsTrue (is_containment metas.now write.now.feature.0) → AllLive cells.old.items (has write.now.items) }
    ensures { AreHeldBy metas.now cells.old.items cells.new.items (write.now ∷ []) }
{
    if !metas.shape(write.feature).containment {
        return;
    }
    let holder = Holder {
        object: write.object,
        feature: write.feature,
    };
    hold_items(cells, write.items.as_slice(), Some(holder));
}

/// Sets the holder of each object that is written into a containment slot.
pub fn hold_all(metas: &Metas, cells: &mut Vec<Cell>, writes: &[Write])
    requires { All (λ w. IsTrue (is_containment metas.now w.feature.0) → AllLive cells.old.items (has w.items)) writes.now }
    ensures { AreHeldBy metas.now cells.old.items cells.new.items writes.now }
{
    for write in writes {
        hold_write(metas, cells, write);
    }
}

/// Sets the holder of each object that is added to a containment slot.
fn hold_added(metas: &Metas, cells: &mut Vec<Cell>, draft: &Draft)
    requires { AllLive cells.old.items (among_objects draft.now.added) }
    ensures { AreHeldHere metas.now draft.now cells.old.items cells.new.items }
{
    if !metas.shape(draft.feature).containment {
        return;
    }
    let holder = Holder {
        object: draft.object,
        feature: draft.feature,
    };
    hold_each(cells, draft.added.as_slice(), Some(holder));
}

/// Carries out the writes, and lets the holders follow: those of released objects are taken away,
/// unless the changed slot or a write gives them one.
pub fn settle(
    metas: &Metas,
    cells: &mut Vec<Cell>,
    draft: &Draft,
    writes: Vec<Write>,
    released: &[Oid],
)
    requires have_slots { HaveSlots metas.now cells.old.items }
    requires writes { All (IsWrite metas.now cells.old.items) writes.items }
    requires items { All (λ w. IsTrue (is_containment metas.now w.feature.0) → AllLive cells.old.items (has w.items)) writes.items }
    requires released { AllLive cells.old.items (among_objects released.now) }
    requires added { AllLive cells.old.items (among_objects draft.now.added) }
    ensures { IsSettled metas.now draft.now cells.old.items cells.new.items writes.items released.now }
{
    hold_each(cells, released, None);
    hold_added(metas, cells, draft);
    hold_all(metas, cells, &writes);
    put_all(metas, cells, writes);
}
