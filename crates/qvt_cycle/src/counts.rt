//! How often numbers stand in lists: never, once, or more often.

ghost use Rattle.std.specs.Prelude.{◌≡◌, ◌+◌, fold, min, IfOk};
ghost use Rattle.qvt_cycle.specs.Counts.{counted, counted_all, zeros};

use crate::lists::Positions;
use qvt_base::list_fault::ListFault;
use qvt_base::seq::Seq;
use std::alloc::Global;

/// One more, up to two.
fn one_more(count: u32) -> u32
    ensures { result ≡ min 2 (count + 1) }
{
    if count < 2 { count + 1 } else { 2 }
}

/// Counts a number.
fn count(counts: &mut Vec<u32>, number: u32)
    ensures { counts.new.items ≡ counted counts.old.items number }
{
    let at = number as usize;
    if at < counts.len() {
        counts[at] = one_more(counts[at]);
    }
}

/// Counts each of the numbers.
pub fn count_all(counts: &mut Vec<u32>, numbers: &[u32])
    ensures { counts.new.items ≡ counted_all counts.old.items numbers.now }
{
    for number in numbers {
        count(counts, *number);
    }
}

/// Counts the numbers of each of the lists.
pub fn count_lists(counts: &mut Vec<u32>, lists: &[Positions])
    ensures { counts.new.items ≡ fold counted_all counts.old.items lists.now }
{
    for list in lists {
        count_all(counts, list.as_slice());
    }
}

/// A count for each, which is 0.
pub fn zeros<T>(alloc: Global, items: &[T]) -> Result<Vec<u32>, ListFault>
    ensures { IfOk result (λ counts. counts.items ≡ zeros items.now) }
{
    let mut counts = Seq::new(alloc);
    for _item in items {
        counts.push(0)?;
    }
    Ok(counts.into_vec())
}
