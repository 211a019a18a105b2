//! Classes that others may be below.

ghost use Rattle.std.specs.Prelude.{◌≡◌, ◌==◌, ◌||◌, ℕ, OnOk, IfOk};
ghost use Rattle.std.specs.List.{list_any};
ghost use Rattle.qvt_metas.specs.NumberSets.{has_number};
ghost use Rattle.qvt_types_overrides.specs.Upper as upper;
ghost use Rattle.qvt_types_overrides.specs.Upper.{AreSupers};

use qvt_base::list_fault::ListFault;
use qvt_base::numbers::ClassNo;
use qvt_metas::info::ClassInfo;
use qvt_metas::number_set::MarkedNumbers;
use qvt_types_above::own::is_element;
use qvt_types_groups::signature::HeadClass;
use qvt_types_paths::metas::Metas;
use std::alloc::Global;

/// Puts the numbers of these classes there.
fn put_all(set: &mut MarkedNumbers, supers: &[ClassNo]) -> Result<(), ListFault>
    ensures { OnOk result ((c : ℕ) → has_number set.new c ≡ (has_number set.old c || list_any (λ s. s.0 == c) supers.now)) }
{
    for class in supers {
        set.put(class.0)?;
    }
    Ok(())
}

/// The superclasses of these classes.
pub fn supers_of(alloc: Global, classes: &[ClassInfo]) -> Result<MarkedNumbers, ListFault>
    ensures { IfOk result (λ set. AreSupers classes.now set) }
{
    let mut set = MarkedNumbers::new(alloc);
    for class in classes {
        put_all(&mut set, class.supers.as_slice())?;
    }
    Ok(set)
}

/// Whether the class is above all others, or a superclass of one.
pub fn is_upper(metas: &Metas, supers: &MarkedNumbers, context: HeadClass) -> bool
    requires { AreSupers metas.now.classes supers.now }
    ensures { result ≡ upper.is_upper metas.now context }
{
    match context {
        HeadClass::Missing => false,
        HeadClass::Unknown => false,
        HeadClass::Known(class) => is_element(metas, class) || supers.has(class.0),
    }
}
