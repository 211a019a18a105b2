//! What is told of the units of each class by itself, and of those of the class above all.

ghost use Rattle.std.specs.Prelude.{◌≡◌, replicate, slice_set, IfOk};
ghost use Rattle.qvt_types_groups.specs.ByClass as by_class;
ghost use Rattle.qvt_types_above.specs.Own as own;
ghost use Rattle.qvt_types_above.specs.declared.above.Above.TheVariants as variants;

use crate::above::{Above, AboveRow, above_at, combined};
use qvt_base::list_fault::ListFault;
use qvt_base::numbers::ClassNo;
use qvt_base::seq::Seq;
use qvt_types_groups::choice::context_at;
use qvt_types_groups::signature::{HeadClass, Signature};
use qvt_types_paths::metas::Metas;
use std::alloc::Global;

/// Whether the class is the one above all.
pub fn is_element(metas: &Metas, class: ClassNo) -> bool
    ensures { result ≡ is_element metas.now class.0 }
{
    metas.are_well_formed();
    metas.ancestors_are_least();
    let nowhere = metas.class_count();
    class.0 != nowhere && metas.descends(ClassNo(nowhere), class)
}

ghost use Rattle.qvt_metas.specs.Metamodels.{is_element};

/// Tells it of a class, where it is there.
pub fn tell(row: &mut AboveRow, class: u32, above: Above)
    ensures { row.new ≡ slice_set row.old class above }
{
    let at = class as usize;
    if at < row.len() {
        row.set(at, above);
    }
}

/// The same of each of as many classes.
pub fn same_of_each(alloc: Global, above: Above, count: u32) -> Result<AboveRow, ListFault>
    ensures { IfOk result (λ row. row ≡ replicate count above) }
{
    let mut row = Seq::new(alloc);
    for class in 0..count {
        row.push(above)?;
    }
    Ok(row)
}

/// Tells of one unit more at its own class.
fn tell_own(metas: &Metas, units: &[Signature], row: &mut AboveRow, context: HeadClass, number: u32)
    ensures { row.new ≡ own.own_more metas.now units.now row.old context number }
{
    if let HeadClass::Known(class) = context {
        let known = above_at(row.as_slice(), class.0);
        let more = combined(metas, units, known, Above::Least(number));
        tell(row, class.0, more);
    }
}

/// The units of each class.
pub fn own_row(
    alloc: Global,
    metas: &Metas,
    units: &[Signature],
    group: &[u32],
    count: u32,
) -> Result<AboveRow, ListFault>
    ensures { IfOk result (λ row. row ≡ own.own_row metas.now units.now (replicate count variants.Nothing) group.now) }
{
    let mut row = same_of_each(alloc, Above::Nothing, count)?;
    for number in group {
        tell_own(metas, units, &mut row, context_at(units, *number), *number);
    }
    Ok(row)
}

fn is_top(metas: &Metas, context: HeadClass) -> bool
    ensures { result ≡ by_class.is_top metas.now context }
{
    match context {
        HeadClass::Missing => false,
        HeadClass::Unknown => false,
        HeadClass::Known(class) => is_element(metas, class),
    }
}

/// One unit more of the class above all, where it is of that.
fn top_more(metas: &Metas, units: &[Signature], told: Above, number: u32) -> Above
    ensures { result ≡ own.top_more metas.now units.now told number }
{
    if is_top(metas, context_at(units, number)) {
        combined(metas, units, told, Above::Least(number))
    } else {
        told
    }
}

/// The units of the class above all.
pub fn top_units(metas: &Metas, units: &[Signature], group: &[u32]) -> Above
    ensures { result ≡ own.top_units metas.now units.now variants.Nothing group.now }
{
    let mut top = Above::Nothing;
    for number in group {
        top = top_more(metas, units, top, *number);
    }
    top
}
