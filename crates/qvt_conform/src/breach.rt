//! What the items of one feature break.

ghost use Rattle.std.specs.Prelude.{◌≡◌, IfOk};
ghost use Rattle.std.specs.List.{list_any};
ghost use Rattle.qvt_conform.specs.Breaches.{lacks_link, lack_links, breach_of, are_kept};

use crate::items::{is_within, repeats};
use crate::links::{Links, ObjectLink};
use qvt_base::list_fault::ListFault;
use qvt_base::numbers::FeatureNo;
use qvt_metas::metas::Metas;
use qvt_model::data::{Datum, SlotData};
use std::alloc::Global;

/// A check of the items of a feature that fails.
#[derive(Clone, Copy)]
pub enum Breach {
    /// They are fewer than the lower bound, or more than the upper.
    Bounds,
    /// One stands twice where each may stand once.
    NotUnique,
    /// One does not hold the object for the opposite.
    Opposite,
}

/// Whether the item is an object that does not hold this one for the feature.
fn lacks(links: &Links, feature: FeatureNo, place: u32, item: &Datum) -> bool
    ensures { result ≡ lacks_link links.now feature.0 place item.now }
{
    match item {
        Datum::Ref(other) => !links.holds(ObjectLink {
            object: *other,
            feature: feature.0,
            target: place,
        }),
        Datum::Bool(_) => false,
        Datum::Int(_) => false,
        Datum::Str(_) => false,
        Datum::Literal(_) => false,
    }
}

fn some_lacks(links: &Links, feature: FeatureNo, place: u32, items: &[Datum]) -> bool
    ensures { result ≡ list_any (lacks_link links.now feature.0 place) items.now }
{
    for item in items {
        if lacks(links, feature, place, item) {
            return true;
        }
    }
    false
}

/// Whether one of the items does not hold the object for the opposite.
fn lack(links: &Links, opposite: Option<FeatureNo>, place: u32, items: &[Datum]) -> bool
    ensures { result ≡ lack_links links.now opposite place items.now }
{
    match opposite {
        None => false,
        Some(feature) => some_lacks(links, feature, place, items),
    }
}

/// The first check that fails of a feature of the object at this place, which holds these items for it.
#[tactic(auto, unfolding(crate::specs::Breaches::breach_of))]
pub fn breach_of(
    alloc: Global,
    metas: &Metas,
    links: &Links,
    place: u32,
    feature: FeatureNo,
    items: &[Datum],
) -> Result<Option<Breach>, ListFault>
    ensures { IfOk result (λ b. b ≡ breach_of metas.now links.now place feature.0 items.now) }
{
    let shape = metas.shape(feature);
    if !is_within(shape, items.len()) {
        return Ok(Some(Breach::Bounds));
    }
    if shape.unique && repeats(alloc, items)? {
        return Ok(Some(Breach::NotUnique));
    }
    if lack(links, metas.opposite(feature), place, items) {
        return Ok(Some(Breach::Opposite));
    }
    Ok(None)
}

/// Whether none of the slots of the object at this place breaks anything.
pub fn are_kept(
    alloc: Global,
    metas: &Metas,
    links: &Links,
    place: u32,
    slots: &[SlotData],
) -> Result<bool, ListFault>
    ensures { IfOk result (λ b. b ≡ are_kept metas.now links.now place slots.now) }
{
    for slot in slots {
        let items = slot.items.as_slice();
        let breach = breach_of(alloc, metas, links, place, slot.feature, items)?;
        if breach.is_some() {
            return Ok(false);
        }
    }
    Ok(true)
}
