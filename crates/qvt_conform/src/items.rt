//! The checks of one slot.

ghost use Rattle.std.specs.Prelude.{◌≡◌, IfOk};
ghost use Rattle.qvt_conform.specs.Items.{is_at_most, is_within, same_item};
ghost use Rattle.qvt_repeats.specs.Repeats.{repeats_by};

use crate::seen::SeenItems;
use qvt_base::list_fault::ListFault;
use qvt_metas::info::FeatureShape;
use qvt_model::data::Datum;
use std::alloc::Global;

fn is_at_most(count: usize, most: Option<u32>) -> bool
    ensures { result ≡ is_at_most count most }
{
    match most {
        None => true,
        Some(most) => count <= most as usize,
    }
}

/// Whether so many items are not fewer than the lower bound and not more than the upper.
pub fn is_within(shape: FeatureShape, count: usize) -> bool
    ensures { result ≡ is_within shape count }
{
    shape.lower as usize <= count && is_at_most(count, shape.upper)
}

/// Whether an item stands twice.
pub fn repeats(alloc: Global, items: &[Datum]) -> Result<bool, ListFault>
    ensures { IfOk result (λ b. b ≡ repeats_by same_item items.now) }
{
    let mut seen = SeenItems::new(alloc);
    for item in items {
        if !seen.add(item)? {
            return Ok(true);
        }
    }
    Ok(false)
}
