//! Calls of units: what is called by a name, and what is ruled of it.

ghost use Rattle.std.specs.Prelude.{◌≡◌, None, IfOk};
ghost use Rattle.qvt_types_context.specs.Seen.{heads_seen};
ghost use Rattle.qvt_typing.specs.Choice as choice;
ghost use Rattle.qvt_typing.specs.Numbers as numbers;
ghost use Rattle.qvt_typing.specs.Calls as calls;

use crate::context::Heads;
use qvt_base::copied::Copied;
use qvt_base::list_fault::ListFault;
use qvt_base::lists::MappingList;
use qvt_base::seq::Seq;
use qvt_types_data::note::{Reading, UnitNoList};
use qvt_types_data::refusal::RefusalKind;
use qvt_types_data::ruling::{Read, Ruling};
use qvt_types_data::ty::{Ty, copied};
use qvt_types_data::variable::Variable;
use qvt_types_groups::choice::{FoundUnit, is_unknown};
pub use qvt_types_groups::numbers::no_unit;
use qvt_types_groups::units::Units;
use qvt_typing::classes::ClassPart;
use qvt_typing::parts::{Called, Effect};
use qvt_typing::signature::{Signature, UnitSort};
use qvt_typing::units::{arguments_wrong, mapping_step, static_class, unit_step};
use std::alloc::Global;

/// The unit of this number, or the one that stands for none.
pub fn unit_at<'a>(units: &'a Units, number: u32, none: &'a Signature) -> &'a Signature
    requires { none.now ≡ numbers.no_unit }
    ensures { result.now ≡ numbers.unit_at units.now.units number }
{
    let units = units.names().signatures();
    let at = number as usize;
    if at < units.len() { &units[at] } else { none }
}

/// What a call by the name finds for objects of a class.
fn on_class(
    alloc: Global,
    heads: &Heads<'_>,
    maps: bool,
    name: &str,
    class: ClassPart,
) -> Result<FoundUnit, ListFault>
    ensures { IfOk result (λ f. f ≡ calls.on_class (heads_seen heads.now) maps name.now class) }
{
    match class {
        ClassPart::Class(class) => heads.units.called_on(alloc, maps, name, class),
        ClassPart::Untyped => Ok(FoundUnit::Untyped),
        ClassPart::Missing => Ok(FoundUnit::NoUnit),
    }
}

/// Whether the context of one of the units is unknown.
fn is_unsure(alloc: Global, heads: &Heads<'_>, units: &[u32]) -> bool
    ensures { result ≡ choice.is_unsure (heads_seen heads.now).units units.now }
{
    let none = no_unit(alloc);
    for unit in units {
        if is_unknown(unit_at(heads.units, *unit, &none).context) {
            return true;
        }
    }
    false
}

/// What is called where this is found among the units of a name, or nothing that is known where the context of one of them is unknown.
fn called_if_sure(alloc: Global, heads: &Heads<'_>, units: UnitNoList, found: FoundUnit) -> Called
    ensures { result ≡ calls.unless_unsure (heads_seen heads.now) units (record { found = found; units = units; source = None }) }
{
    let found = if is_unsure(alloc, heads, units.as_slice()) {
        FoundUnit::Untyped
    } else {
        found
    };
    Called {
        found,
        units,
        source: None,
    }
}

/// What a call behind a step finds.
pub fn called_behind(
    alloc: Global,
    heads: &Heads<'_>,
    maps: bool,
    arrow: bool,
    name: &str,
    source: &Option<Ty>,
) -> Result<Called, ListFault>
    ensures { IfOk result (λ c. c ≡ calls.called_behind (heads_seen heads.now) maps arrow name.now source.now) }
{
    let found = on_class(alloc, heads, maps, name, static_class(arrow, source))?;
    let units = Seq::from_slice(alloc, heads.units.names().group(maps, name))?;
    Ok(called_if_sure(alloc, heads, units, found))
}

fn class_part_of(ty: &Option<Ty>) -> ClassPart
    ensures { result ≡ calls.class_part_of ty.now }
{
    match ty {
        None => ClassPart::Untyped,
        Some(Ty::Class(class)) => ClassPart::Class(*class),
        Some(_) => ClassPart::Missing,
    }
}

/// What a call on an implicit source finds, or on those that stand further out, where it finds nothing there.
fn called_from(
    alloc: Global,
    heads: &Heads<'_>,
    maps: bool,
    name: &str,
    source: &Variable,
    otherwise: Called,
) -> Result<Called, ListFault>
    ensures { IfOk result (λ c. c ≡ calls.unless_none (calls.called_from (heads_seen heads.now) maps name.now source.now).found (calls.called_from (heads_seen heads.now) maps name.now source.now) otherwise) }
{
    match on_class(alloc, heads, maps, name, class_part_of(&source.ty))? {
        FoundUnit::NoUnit => Ok(otherwise),
        found => Ok(Called {
            found,
            units: Seq::from_slice(alloc, heads.units.names().group(maps, name))?,
            source: Some(source.name.copy(alloc)?),
        }),
    }
}

/// What a call on the nearest implicit source that has it finds.
fn called_implicitly(
    alloc: Global,
    heads: &Heads<'_>,
    maps: bool,
    name: &str,
    sources: &[Variable],
) -> Result<Called, ListFault>
    ensures { IfOk result (λ c. c ≡ calls.called_implicitly (heads_seen heads.now) maps name.now calls.nothing_called sources.now) }
{
    let mut called = Called {
        found: FoundUnit::NoUnit,
        units: Seq::new(alloc),
        source: None,
    };
    for source in sources {
        called = called_from(alloc, heads, maps, name, source, called)?;
    }
    Ok(called)
}

/// What a call without a step finds: a unit without a context, else one on an implicit source.
#[tactic(auto, unfolding(qvt_typing::specs::Calls::called_alone))]
pub fn called_alone(
    alloc: Global,
    heads: &Heads<'_>,
    maps: bool,
    name: &str,
    sources: &[Variable],
) -> Result<Called, ListFault>
    ensures { IfOk result (λ c. c ≡ calls.called_alone (heads_seen heads.now) maps name.now sources.now) }
{
    let units = heads.units.names().group(maps, name);
    if is_unsure(alloc, heads, units) {
        return Ok(Called {
            found: FoundUnit::Untyped,
            units: Seq::from_slice(alloc, units)?,
            source: None,
        });
    }
    match heads.units.names().free_unit(maps, name) {
        None => called_implicitly(alloc, heads, maps, name, sources),
        Some(number) => Ok(Called {
            found: FoundUnit::Chosen(number),
            units: Seq::from_slice(alloc, &[number])?,
            source: None,
        }),
    }
}

/// The numbers of those of the units that are mappings.
pub fn numbers_of(alloc: Global, heads: &Heads<'_>, units: &[u32]) -> Result<MappingList, ListFault>
    ensures { IfOk result (λ ns. ns ≡ calls.numbers_of (heads_seen heads.now) units.now) }
{
    let none = no_unit(alloc);
    let mut numbers = Seq::with_room(alloc, units.len())?;
    for unit in units {
        if let UnitSort::Mapping(number) = unit_at(heads.units, *unit, &none).sort {
            numbers.push(number)?;
        }
    }
    Ok(numbers)
}

fn reading_of(
    alloc: Global,
    heads: &Heads<'_>,
    maps: bool,
    units: &UnitNoList,
) -> Result<Reading, ListFault>
    ensures { IfOk result (λ r. r ≡ calls.reading_of (heads_seen heads.now) maps units.now) }
{
    if maps {
        Ok(Reading::Mappings(numbers_of(alloc, heads, units.as_slice())?))
    } else {
        Ok(Reading::Units(Seq::from_slice(alloc, units.as_slice())?))
    }
}

/// The unit that is called with arguments of these types, or what is ruled where none is.
fn unit_called(
    alloc: Global,
    heads: &Heads<'_>,
    found: FoundUnit,
    types: &Option<Seq<Ty>>,
) -> Result<u32, Ruling>
    ensures { result ≡ calls.unit_called (heads_seen heads.now) found types.now }
{
    let Some(types) = types else {
        return Err(Ruling::Silent);
    };
    match found {
        FoundUnit::NoUnit => Err(Ruling::Fails(RefusalKind::UnknownName)),
        FoundUnit::Untyped => Err(Ruling::Silent),
        FoundUnit::Unclear => Err(Ruling::Fails(RefusalKind::Ambiguous)),
        FoundUnit::Chosen(number) => {
            let none = no_unit(alloc);
            let unit = unit_at(heads.units, number, &none);
            match arguments_wrong(
                heads.units.metas(),
                unit.params.as_slice(),
                types.as_slice(),
            ) {
                None => Ok(number),
                Some(kind) => Err(Ruling::Fails(kind)),
            }
        }
    }
}

/// What is ruled of a call without a step.
pub fn call_ruled(
    alloc: Global,
    heads: &Heads<'_>,
    maps: bool,
    called: &Called,
    types: &Option<Seq<Ty>>,
) -> Result<Ruling, ListFault>
    ensures { IfOk result (λ r. r ≡ calls.call_ruled (heads_seen heads.now) maps called.now types.now) }
{
    let number = match unit_called(alloc, heads, called.found, types) {
        Ok(number) => number,
        Err(ruling) => return Ok(ruling),
    };
    let none = no_unit(alloc);
    let unit = unit_at(heads.units, number, &none);
    if unit.answer.is_none() {
        return Ok(Ruling::Silent);
    }
    Ok(Ruling::Holds(Read {
        reading: reading_of(alloc, heads, maps, &called.units)?,
        source: match &called.source {
            None => None,
            Some(name) => Some(name.copy(alloc)?),
        },
        wrap: false,
        collect: false,
        answer: copied(alloc, &unit.answer)?,
    }))
}

/// What is ruled of a call of a helper or a query behind a dot.
pub fn unit_ruled(
    alloc: Global,
    heads: &Heads<'_>,
    source: &Option<Ty>,
    called: &Called,
    types: &Option<Seq<Ty>>,
) -> Result<Ruling, ListFault>
    ensures { IfOk result (λ r. r ≡ calls.unit_ruled (heads_seen heads.now) source.now called.now types.now) }
{
    if source.is_none() {
        return Ok(Ruling::Silent);
    }
    match unit_called(alloc, heads, called.found, types) {
        Ok(number) => {
            let none = no_unit(alloc);
            let unit = unit_at(heads.units, number, &none);
            let reading = reading_of(alloc, heads, false, &called.units)?;
            unit_step(alloc, source, reading, &unit.answer)
        }
        Err(ruling) => Ok(ruling),
    }
}

/// What is ruled of a call of a mapping behind a dot or an arrow.
pub fn map_ruled(
    alloc: Global,
    heads: &Heads<'_>,
    arrow: bool,
    source: &Option<Ty>,
    called: &Called,
    types: &Option<Seq<Ty>>,
) -> Result<Ruling, ListFault>
    ensures { IfOk result (λ r. r ≡ calls.map_ruled (heads_seen heads.now) arrow source.now called.now types.now) }
{
    if source.is_none() {
        return Ok(Ruling::Silent);
    }
    match unit_called(alloc, heads, called.found, types) {
        Ok(number) => {
            let none = no_unit(alloc);
            let unit = unit_at(heads.units, number, &none);
            let reading = reading_of(alloc, heads, true, &called.units)?;
            mapping_step(alloc, arrow, source, reading, &unit.answer)
        }
        Err(ruling) => Ok(ruling),
    }
}

/// What a call of a unit does to a run.
pub fn effect_of(alloc: Global, heads: &Heads<'_>, called: &Called) -> Effect
    ensures { result ≡ calls.effect_of (heads_seen heads.now) called.now }
{
    let FoundUnit::Chosen(number) = called.found else {
        return Effect::PlainOne;
    };
    let none = no_unit(alloc);
    match unit_at(heads.units, number, &none).sort {
        UnitSort::Query => Effect::PureOne,
        _ => Effect::ImpureOne,
    }
}
