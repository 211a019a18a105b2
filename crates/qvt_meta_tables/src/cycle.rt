//! The first class that is above itself.

ghost use Rattle.std.specs.Prelude.{◌≡◌, ◌<◌, map, length, IfOk, IfSome};
ghost use Rattle.qvt_meta_tables.specs.Cycles.{super_numbers, first_cycle};

use qvt_base::list_fault::ListFault;
use qvt_base::numbers::ClassNo;
use qvt_base::seq::Seq;
use qvt_cycle::cycles::Cycles;
use qvt_cycle::lists::Positions;
use qvt_metamodel::info::ClassInfo;
use std::alloc::Global;

/// The numbers of these classes.
fn numbers_of(alloc: Global, classes: &[ClassNo]) -> Result<Positions, ListFault>
    ensures { IfOk result (λ s. s ≡ map (λ c. c.0) classes.now) }
{
    let mut numbers = Seq::with_room(alloc, classes.len())?;
    for class in classes {
        numbers.push(class.0)?;
    }
    Ok(numbers)
}

/// The numbers of the superclasses of each class.
fn super_lists(alloc: Global, classes: &[ClassInfo]) -> Result<Vec<Positions>, ListFault>
    ensures { IfOk result (λ v. v.items ≡ map super_numbers classes.now) }
{
    let mut lists = Seq::with_room(alloc, classes.len())?;
    for class in classes {
        lists.push(numbers_of(alloc, class.supers.as_slice())?)?;
    }
    Ok(lists.into_vec())
}

/// The first of as many classes that is above itself.
pub fn first_cycle(
    alloc: Global,
    classes: &[ClassInfo],
    count: u32,
) -> Result<Option<u32>, ListFault>
    requires { length classes.now ≡ count }
    ensures cycle { IfOk result (λ o. o ≡ first_cycle classes.now) }
    ensures bound { IfOk result (λ o. IfSome o (λ class. class < count)) }
{
    let lists = super_lists(alloc, classes)?;
    let cycles = Cycles::new(alloc, lists.as_slice())?;
    for class in 0..count {
        if cycles.is_on_cycle(alloc, lists.as_slice(), class)? {
            return Ok(Some(class));
        }
    }
    Ok(None)
}
