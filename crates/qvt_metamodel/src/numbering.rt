ghost use Rattle.std.specs.Prelude.{◌≡◌, ◌+◌, ◌<◌, ◌^◌, IfOk};
ghost use Rattle.qvt_metamodel.specs.Added.{numbers_from};

use qvt_base::list_fault::ListFault;
use qvt_base::lists::FeatureNoList;
use qvt_base::numbers::FeatureNo;
use qvt_base::seq::Seq;
use std::alloc::Global;

/// As many numbers from this one on.
pub fn numbers_from(alloc: Global, first: u32, count: usize) -> Result<FeatureNoList, ListFault>
    requires { first + count < 2 ^ 32 }
    ensures { IfOk result (λ s. s ≡ numbers_from first count) }
{
    let last = first + count as u32;
    let mut numbers = Seq::with_room(alloc, count)?;
    for number in first..last {
        numbers.push(FeatureNo(number))?;
    }
    Ok(numbers)
}
