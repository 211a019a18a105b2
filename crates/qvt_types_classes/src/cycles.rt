//! Intermediate classes that are above themselves.

ghost use Rattle.std.specs.Prelude.{◌≡◌, ◌++◌, [], if◌then◌else◌, IfOk, OnOk};
ghost use Rattle.qvt_types_classes.specs.Written as declared;

use crate::declared::Declared;
use qvt_base::copied::Copied;
use qvt_base::list_fault::ListFault;
use qvt_base::seq::Seq;
use qvt_cycle::cycles::Cycles;
use qvt_cycle::lists::Positions;
use qvt_types_data::refusal::RefusalKind;
use qvt_types_paths::told::{RefusalList, tell_if};
use std::alloc::Global;

impl Copied for Declared {
    fn copy(&self, alloc: Global) -> Result<Declared, ListFault> {
        Ok(Declared {
            name: self.name.copy(alloc)?,
            supers: self.supers.copy(alloc)?,
            properties: self.properties.copy(alloc)?,
            place: self.place,
        })
    }
}

/// The superclasses of each class.
fn super_lists(alloc: Global, classes: &[Declared]) -> Result<Vec<Positions>, ListFault>
    ensures { IfOk result (λ v. v.items ≡ declared.super_lists classes.now) }
{
    let mut lists = Seq::new(alloc);
    for class in classes {
        lists.push(class.supers.copy(alloc)?)?;
    }
    Ok(lists.into_vec())
}

/// For each number whether it leads back to itself.
fn flags_of(alloc: Global, lists: &[Positions], count: u32) -> Result<Seq<bool>, ListFault>
    requires { length lists.now ≡ count }
    ensures { IfOk result (λ flags. flags ≡ declared.cycle_flags lists.now) }
{
    let cycles = Cycles::new(alloc, lists)?;
    let mut flags = Seq::new(alloc);
    for number in 0..count {
        flags.push(cycles.is_on_cycle(alloc, lists, number)?)?;
    }
    Ok(flags)
}

ghost use Rattle.std.specs.Prelude.{length};

/// For each class whether it is above itself.
pub fn cycle_flags(alloc: Global, classes: &[Declared]) -> Result<Seq<bool>, ListFault>
    ensures { IfOk result (λ flags. flags ≡ declared.cycle_flags (declared.super_lists classes.now)) }
{
    let lists = super_lists(alloc, classes)?;
    let Ok(count) = u32::try_from(lists.len()) else {
        return Err(ListFault::NoMemory);
    };
    flags_of(alloc, lists.as_slice(), count)
}

fn flag_at(flags: &[bool], place: usize) -> bool
    ensures { result ≡ declared.flag_at flags.now place }
{
    place < flags.len() && flags[place]
}

/// No superclasses where the class is above itself, else these.
fn supers_unless(alloc: Global, is_above: bool, supers: &Positions) -> Result<Positions, ListFault>
    ensures { IfOk result (λ s. s ≡ (if is_above then [] else supers.now)) }
{
    if is_above {
        Ok(Seq::new(alloc))
    } else {
        supers.copy(alloc)
    }
}

/// The class, without superclasses where it is above itself.
fn uncycled(alloc: Global, is_above: bool, class: &Declared) -> Result<Declared, ListFault>
    ensures { IfOk result (λ d. d ≡ declared.uncycled is_above class.now) }
{
    let supers = supers_unless(alloc, is_above, &class.supers)?;
    Ok(Declared {
        name: class.name.copy(alloc)?,
        supers,
        properties: class.properties.copy(alloc)?,
        place: class.place,
    })
}

/// The classes, those that are above themselves without superclasses.
pub fn uncycled_all(
    alloc: Global,
    flags: &[bool],
    classes: &[Declared],
) -> Result<Seq<Declared>, ListFault>
    ensures { IfOk result (λ ds. ds ≡ declared.uncycled_from flags.now 0 classes.now) }
{
    let mut uncut = Seq::new(alloc);
    for (place, class) in classes.iter().enumerate() {
        uncut.push(uncycled(alloc, flag_at(flags, place), class)?)?;
    }
    Ok(uncut)
}

/// Tells which classes are above themselves: ReuseCycle, at the class.
pub fn tell_cycles(
    flags: &[bool],
    classes: &[Declared],
    log: &mut RefusalList,
) -> Result<(), ListFault>
    ensures { OnOk result (log.new ≡ log.old ++ declared.cycles_told flags.now 0 classes.now) }
{
    for (place, class) in classes.iter().enumerate() {
        tell_if(
            log,
            flag_at(flags, place),
            RefusalKind::ReuseCycle,
            class.place,
        )?;
    }
    Ok(())
}
