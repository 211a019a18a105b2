//! The units of each name with a context, those of classes that others may be below, and those of these that take or answer other than
//! the first.

ghost use Rattle.std.specs.Prelude.{◌≡◌, ◌++◌, ◌∷◌, [], ◌&&◌, not, ℕ, List, length, nat_lt, if◌then◌else◌, IfOk};
ghost use Rattle.std.specs.Str.{bytes_eq};
ghost use Rattle.qvt_types_groups.specs.Numbers.{unit_at, numbers_where};
ghost use Rattle.qvt_types_groups.specs.Lists.{is_one, numbers_under};
ghost use Rattle.qvt_types_overrides.specs.Odd as odd_words;
ghost use Rattle.qvt_types_overrides.specs.Odd.{AreByName};
ghost use Rattle.qvt_types_above.specs.Shapes as shapes;
ghost use Rattle.qvt_types_overrides.specs.Upper.{is_upper, AreSupers};

use crate::upper::is_upper;
use qvt_base::list_fault::ListFault;
use qvt_metas::number_set::MarkedNumbers;
use qvt_types_above::shapes::same_shape;
use qvt_types_groups::class_keys::is_called;
use qvt_types_groups::number_lists::NumberLists;
use qvt_types_groups::numbers::has_context;
use qvt_types_groups::signature::Signature;
use qvt_types_groups::unit_lists::lists_of;
use qvt_types_paths::metas::Metas;
use std::alloc::Global;

/// Units that are called alike and have a context, by their names.
pub struct UnitsByName {
    pub all: NumberLists,
    /// Those of classes that others may be below.
    pub upper: NumberLists,
    /// Those of these that take or answer other than the first of their name.
    pub odd: NumberLists,
}

impl Drop for UnitsByName {
    fn drop(self) {
        let UnitsByName { all, upper, odd } = self;
    }
}

fn is_same_at(units: &[Signature], unit: &Signature, number: u32) -> bool
    ensures { result ≡ (nat_lt number (length units.now) && shapes.same_shape (unit_at units.now number) unit.now) }
{
    let at = number as usize;
    at < units.len() && same_shape(&units[at], unit)
}

/// Whether the unit takes and answers what the first of these does.
fn is_like_first(units: &[Signature], group: &[u32], unit: &Signature) -> bool
    ensures { result ≡ odd_words.is_like_first units.now group.now unit.now }
{
    match group {
        [] => false,
        [first, ..] => is_same_at(units, unit, *first),
    }
}

/// Whether the unit is one of these, of a class that others may be below.
fn is_upper_unit(metas: &Metas, supers: &MarkedNumbers, maps: bool, unit: &Signature) -> bool
    requires { AreSupers metas.now.classes supers.now }
    ensures { result ≡ (is_one maps true unit.now && is_upper metas.now unit.now.context) }
{
    is_called(maps, unit.sort) && has_context(unit.context) && is_upper(metas, supers, unit.context)
}

/// Whether it is not like the first of its name either.
fn is_odd(
    metas: &Metas,
    supers: &MarkedNumbers,
    maps: bool,
    units: &[Signature],
    all: &NumberLists,
    unit: &Signature,
) -> bool
    requires { AreSupers metas.now.classes supers.now }
    ensures { result ≡ (is_one maps true unit.now && (is_upper metas.now unit.now.context && not (odd_words.is_like_first units.now (numbers_under all.now unit.now.name) unit.now))) }
{
    let group = all.find(unit.name.as_str());
    is_upper_unit(metas, supers, maps, unit) && !is_like_first(units, group, unit)
}

ghost use Rattle.std.specs.Prelude.{true};

/// The lists with the number of a unit under its name, where it is one of them.
fn with_unit(
    alloc: Global,
    lists: NumberLists,
    is_one: bool,
    number: u32,
    unit: &Signature,
) -> Result<NumberLists, ListFault>
    ensures { IfOk result (λ more. (name : List ℕ) → numbers_under more name ≡ numbers_under lists name ++ (if bytes_eq name unit.now.name && is_one then number ∷ [] else [])) }
{
    if is_one {
        let more = lists.with(alloc, unit.name.as_str(), number)?;
        Ok(more)
    } else {
        Ok(lists)
    }
}

/// The units of classes that others may be below. It is refused as out of memory where their numbers do not fit 32 bits.
fn upper_ones(
    alloc: Global,
    metas: &Metas,
    supers: &MarkedNumbers,
    maps: bool,
    units: &[Signature],
) -> Result<NumberLists, ListFault>
    requires { AreSupers metas.now.classes supers.now }
    ensures { IfOk result (λ upper. (name : List ℕ) → numbers_under upper name ≡ numbers_where (odd_words.is_upper_unit metas.now maps name) 0 units.now) }
{
    let Ok(count) = u32::try_from(units.len()) else {
        return Err(ListFault::NoMemory);
    };
    let mut upper = NumberLists::new(alloc);
    for number in 0..count {
        let unit = &units[number as usize];
        let is_one = is_upper_unit(metas, supers, maps, unit);
        upper = with_unit(alloc, upper, is_one, number, unit)?;
    }
    Ok(upper)
}

/// Those of them that are not like the first of their name, where these are all of each name. It is refused as out of memory where
/// their numbers do not fit 32 bits.
fn odd_ones(
    alloc: Global,
    metas: &Metas,
    supers: &MarkedNumbers,
    maps: bool,
    units: &[Signature],
    all: &NumberLists,
) -> Result<NumberLists, ListFault>
    requires { AreSupers metas.now.classes supers.now }
    ensures { IfOk result (λ odd. (name : List ℕ) → numbers_under odd name ≡ numbers_where (odd_words.is_odd metas.now maps units.now (numbers_under all.now name) name) 0 units.now) }
{
    let Ok(count) = u32::try_from(units.len()) else {
        return Err(ListFault::NoMemory);
    };
    let mut odd = NumberLists::new(alloc);
    for number in 0..count {
        let unit = &units[number as usize];
        let is_one = is_odd(metas, supers, maps, units, all, unit);
        odd = with_unit(alloc, odd, is_one, number, unit)?;
    }
    Ok(odd)
}

/// The mappings with a context, or the helpers and queries, by their names, where the set has the superclasses of all classes. It is
/// refused as out of memory where their numbers do not fit 32 bits.
pub fn by_name(
    alloc: Global,
    metas: &Metas,
    supers: &MarkedNumbers,
    maps: bool,
    units: &[Signature],
) -> Result<UnitsByName, ListFault>
    requires { AreSupers metas.now.classes supers.now }
    ensures { IfOk result (AreByName metas.now maps units.now) }
{
    let all = lists_of(alloc, maps, true, units)?;
    let upper = upper_ones(alloc, metas, supers, maps, units)?;
    let odd = odd_ones(alloc, metas, supers, maps, units, &all)?;
    Ok(UnitsByName { all, upper, odd })
}
