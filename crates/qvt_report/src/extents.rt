//! The models that a run writes.

ghost use Rattle.std.specs.Prelude.{◌≡◌, ◌++◌, ◌∷◌, [], if◌then◌else◌, length, IfOk, IsTrue, OnOk};
ghost use Rattle.std.specs.List.{AllByRecursion, flat_map};
ghost use Rattle.qvt_conform.specs.LowerBounds.{low_of};
ghost use Rattle.qvt_store.specs.Contents.{is_extent, members_of};
ghost use Rattle.qvt_meaning_report.specs.Lines.{written_count};
ghost use Rattle.qvt_meaning_report.specs.Meaning as report;
ghost use Rattle.qvt_report.specs.Extents.{is_written, numbers_along};

use qvt_base::list_fault::ListFault;
use qvt_base::lists::ExtentNumberList;
use qvt_base::seq::Seq;
use qvt_conform::fault::LowFault;
use qvt_conform::low::lower_bounds;
use qvt_store::extent::Extent;
use qvt_store::store::Store;
use std::alloc::Global;

/// Whether the extent is that of a model that can be changed.
#[tactic(auto, using(crate::proofs::Along::is_unnamed, crate::proofs::Along::has_name))]
pub fn is_written(extent: &Extent) -> bool
    ensures { result ≡ is_written extent.now }
{
    !extent.name.is_empty() && extent.writable
}

/// Puts the number last, if its extent is written.
fn put_written(
    extents: &mut ExtentNumberList,
    number: usize,
    extent: &Extent,
) -> Result<(), ListFault>
    ensures { OnOk result (extents.new ≡ extents.old ++ (if is_written extent.now then number ∷ [] else [])) }
{
    let Ok(number) = u32::try_from(number) else {
        return Err(ListFault::NoMemory);
    };
    if is_written(extent) {
        return extents.push(number);
    }
    Ok(())
}

/// The extents that are written: those of models that can be changed.
#[tactic(auto, using(crate::proofs::Along::along_is))]
pub fn written_extents(alloc: Global, store: &Store) -> Result<ExtentNumberList, ListFault>
    ensures { IfOk result (λ extents. extents ≡ report.written_extents store.now) }
{
    numbers_along(alloc, store.extents().as_slice())
}

/// The numbers of the extents that are written.
fn numbers_along(alloc: Global, extents: &[Extent]) -> Result<ExtentNumberList, ListFault>
    ensures { IfOk result (λ numbers. numbers ≡ numbers_along 0 extents.now) }
{
    let mut numbers = Seq::new(alloc);
    for (number, extent) in extents.iter().enumerate() {
        put_written(&mut numbers, number, extent)?;
    }
    Ok(numbers)
}

/// The first object of the extent, and the first of its features, with fewer items than the lower bound.
fn low_of(store: &Store, extent: u32) -> Option<LowFault>
    requires { IsTrue (is_extent store.now extent) }
    ensures { result ≡ low_of store.now extent }
{
    match lower_bounds(store, extent) {
        Ok(()) => None,
        Err(fault) => Some(fault),
    }
}

/// The first of these extents that has such an object.
fn low_among(store: &Store, extents: &[u32]) -> Option<LowFault>
    requires { AllByRecursion (λ e. IsTrue (is_extent store.now e)) extents.now }
    ensures { result ≡ report.low_among store.now extents.now }
{
    for extent in extents {
        if let Some(fault) = low_of(store, *extent) {
            return Some(fault);
        }
    }
    None
}

/// The first slot of what is written that is under its lower bound: the extents, their objects, and the features of each in
/// order.
#[tactic(auto, unfolding(qvt_meaning_report::specs::Meaning::low_in))]
pub fn low_in(alloc: Global, store: &Store) -> Result<Option<LowFault>, ListFault>
    ensures { IfOk result (λ fault. fault ≡ report.low_in store.now) }
{
    let extents = written_extents(alloc, store)?;
    Ok(low_among(store, extents.as_slice()))
}

/// How many objects these extents have.
fn count_of(store: &Store, extents: &[u32]) -> Result<usize, ListFault>
    requires { AllByRecursion (λ e. IsTrue (is_extent store.now e)) extents.now }
    ensures { IfOk result (λ count. count ≡ length (flat_map (members_of store.now) extents.now)) }
{
    let mut count = 0usize;
    for extent in extents {
        let Some(more) = count.checked_add(store.extent(*extent).len()) else {
            return Err(ListFault::NoMemory);
        };
        count = more;
    }
    Ok(count)
}

/// How many objects are written.
pub fn written_count(alloc: Global, store: &Store) -> Result<usize, ListFault>
    ensures { IfOk result (λ count. count ≡ written_count store.now) }
{
    let extents = written_extents(alloc, store)?;
    count_of(store, extents.as_slice())
}
