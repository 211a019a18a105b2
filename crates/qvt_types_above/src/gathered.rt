//! Lists of units by which is told what a class asks, each unit once.

ghost use Rattle.std.specs.Prelude.{◌≡◌, IfOk, OnOk};
ghost use Rattle.std.specs.List.{list_all};
ghost use Rattle.qvt_types_above.specs.Gathered as gathered;
ghost use Rattle.qvt_types_above.specs.Gathered.{AreThere};
ghost use Rattle.qvt_types_above.specs.Above.{above_at};

use crate::above::{Above, above_at, list_at};
use qvt_base::list_fault::ListFault;
use qvt_base::numbers::ClassNo;
use qvt_base::seq::Seq;
use qvt_metas::number_set::MarkedNumbers;
use std::alloc::Global;

/// Puts the number last, if it is not there.
fn put(numbers: &mut Seq<u32>, seen: &mut MarkedNumbers, number: u32) -> Result<(), ListFault>
    requires { AreThere numbers.old seen.old }
    ensures numbers { OnOk result (numbers.new ≡ gathered.put numbers.old number) }
    ensures seen { OnOk result (AreThere numbers.new seen.new) }
{
    if !seen.has(number) {
        seen.put(number)?;
        numbers.push(number)?;
    }
    Ok(())
}

/// Puts those of these numbers last that are not there.
fn put_all(numbers: &mut Seq<u32>, seen: &mut MarkedNumbers, more: &[u32]) -> Result<(), ListFault>
    requires { AreThere numbers.old seen.old }
    ensures numbers { OnOk result (numbers.new ≡ gathered.put_all numbers.old more.now) }
    ensures seen { OnOk result (AreThere numbers.new seen.new) }
{
    for number in more {
        put(numbers, seen, *number)?;
    }
    Ok(())
}

/// The same of the units by which something is told.
fn put_told(
    lists: &[Seq<u32>],
    numbers: &mut Seq<u32>,
    seen: &mut MarkedNumbers,
    told: Above,
) -> Result<(), ListFault>
    requires { AreThere numbers.old seen.old }
    ensures numbers { OnOk result (numbers.new ≡ gathered.put_all numbers.old (gathered.numbers_of lists.now told)) }
    ensures seen { OnOk result (AreThere numbers.new seen.new) }
{
    match told {
        Above::Untold => Ok(()),
        Above::Nothing => Ok(()),
        Above::Least(least) => put(numbers, seen, least),
        Above::Both(first, second) => {
            put(numbers, seen, first)?;
            put(numbers, seen, second)
        }
        Above::Listed(place) => put_all(numbers, seen, list_at(lists, place)),
    }
}

/// The same of what is told of these classes.
fn put_classes(
    lists: &[Seq<u32>],
    row: &[Above],
    numbers: &mut Seq<u32>,
    seen: &mut MarkedNumbers,
    classes: &[ClassNo],
) -> Result<(), ListFault>
    requires { AreThere numbers.old seen.old }
    ensures { OnOk result (numbers.new ≡ gathered.put_classes lists.now row.now numbers.old classes.now) }
{
    for class in classes {
        put_told(lists, numbers, seen, above_at(row, class.0))?;
    }
    Ok(())
}

/// The units by which it is told already and of these classes.
pub fn gathered(
    alloc: Global,
    lists: &[Seq<u32>],
    row: &[Above],
    seen: &mut MarkedNumbers,
    told: Above,
    classes: &[ClassNo],
) -> Result<Seq<u32>, ListFault>
    ensures { IfOk result (λ numbers. numbers ≡ gathered.gathered lists.now row.now told classes.now) }
{
    let mut numbers = Seq::new(alloc);
    seen.clear();
    put_told(lists, &mut numbers, seen, told)?;
    put_classes(lists, row, &mut numbers, seen, classes)?;
    Ok(numbers)
}

fn is_told(told: Above) -> bool
    ensures { result ≡ gathered.is_told told }
{
    match told {
        Above::Untold => false,
        Above::Nothing => true,
        Above::Least(_) => true,
        Above::Both(_, _) => true,
        Above::Listed(_) => true,
    }
}

fn is_each_told(row: &[Above], classes: &[ClassNo]) -> bool
    ensures { result ≡ list_all (λ c. gathered.is_told (above_at row.now c.0)) classes.now }
{
    classes.iter().all(|class| is_told(above_at(row, class.0)))
}

/// Whether something is told already and of each of these classes.
pub fn are_told(row: &[Above], told: Above, classes: &[ClassNo]) -> bool
    ensures { result ≡ gathered.are_told row.now told classes.now }
{
    is_told(told) && is_each_told(row, classes)
}
