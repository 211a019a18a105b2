//! The choice of a unit for each class by itself, whatever is below it: that of its own units, or else what its superclasses have.

ghost use Rattle.std.specs.Prelude.{◌≡◌, ◌<◌, ◌&&◌, ◌||◌, ℕ, List, eqb, length, replicate, false, None, is_some, IfOk};
ghost use Rattle.std.specs.List.{IsDistinct};
ghost use Rattle.qvt_metas.specs.Metamodels.{class_at, is_element};
ghost use Rattle.qvt_types_units.specs.Choice as choice;
ghost use Rattle.qvt_types_choices.specs.ByClass as by_class;
ghost use Rattle.qvt_types_choices.specs.ByClass.{AreKnown, AreChosen};
ghost use Rattle.qvt_types_choices.specs.Only as only;

use crate::bits::{mark_if, no_bits, row_of};
use crate::candidates::lowest;
use crate::only::{choice_of, is_rival, lower_of};
use crate::stuck::emptied;
use qvt_base::list_fault::ListFault;
use qvt_base::numbers::ClassNo;
use qvt_base::seq::Seq;
use qvt_metas::order::{Order, order_of};
use qvt_metas::row::Row;
use qvt_metas::tables::supers_at;
use qvt_types_paths::metas::Metas;
use qvt_types_units::choice::{FoundUnit, context_at};
use qvt_types_units::signature::{HeadClass, Signature};
use std::alloc::Global;

/// What is known of each class by its number: its choice, or nothing.
type KnownChoices = Seq<Option<FoundUnit>>;

/// For each class its choice, and the concrete classes without a single one, though some units are above them.
#[derive(Drop)]
pub struct ClassChoices {
    pub each: Seq<FoundUnit>,
    pub stuck: Row,
}

fn chosen_of(chosen: Option<u32>) -> FoundUnit
    ensures { result ≡ choice.chosen_of false chosen }
{
    match chosen {
        None => FoundUnit::Unclear,
        Some(number) => FoundUnit::Chosen(number),
    }
}

/// The choice where these are the units that an object may be handed to.
fn choice_among(
    alloc: Global,
    metas: &Metas,
    units: &[Signature],
    among: &[u32],
) -> Result<FoundUnit, ListFault>
    ensures { IfOk result (λ f. f ≡ by_class.choice_among metas.now units.now among.now) }
{
    match among {
        [] => Ok(FoundUnit::NoUnit),
        some => Ok(chosen_of(lowest(alloc, metas, units, some)?)),
    }
}

/// Nothing of each of as many classes.
fn nothing_known(alloc: Global, count: u32) -> Result<KnownChoices, ListFault>
    ensures { IfOk result (λ known. known ≡ replicate count None) }
{
    match vec![in alloc; None; count as usize] {
        Ok(known) => Ok(Seq::from_vec(known)),
        Err(_) => Err(ListFault::NoMemory),
    }
}

fn known_at(known: &[Option<FoundUnit>], class: u32) -> Option<FoundUnit>
    ensures { result ≡ by_class.known_at known.now class }
{
    let at = class as usize;
    if at < known.len() { known[at] } else { None }
}

/// What is known of a class that has one unit more.
fn one_more(known: Option<FoundUnit>, number: u32) -> Option<FoundUnit>
    ensures { result ≡ by_class.one_more known number }
{
    match known {
        None => Some(FoundUnit::Chosen(number)),
        Some(_) => Some(FoundUnit::Unclear),
    }
}

/// Tells what is known of a class, where it is there.
fn tell(known: &mut KnownChoices, class: u32, choice: Option<FoundUnit>)
    ensures { known.new ≡ slice_set known.old class choice }
{
    let at = class as usize;
    if at < known.len() {
        known.set(at, choice);
    }
}

ghost use Rattle.std.specs.Prelude.{slice_set};

/// Tells that the class of a unit has one more.
fn tell_more(known: &mut KnownChoices, context: HeadClass, number: u32)
    ensures { known.new ≡ by_class.told_more known.old context number }
{
    if let HeadClass::Known(class) = context {
        let more = one_more(known_at(known.as_slice(), class.0), number);
        tell(known, class.0, more);
    }
}

/// What is known of each class by its own units.
fn own_choices(
    alloc: Global,
    units: &[Signature],
    group: &[u32],
    count: u32,
) -> Result<KnownChoices, ListFault>
    ensures each { IfOk result (λ known. length known ≡ count) }
    ensures own { IfOk result (λ known. (c : ℕ) → c < count → by_class.known_at known c ≡ by_class.all_more None (by_class.own units.now group.now c)) }
{
    let mut known = nothing_known(alloc, count)?;
    for number in group {
        tell_more(&mut known, context_at(units, *number), *number);
    }
    Ok(known)
}

/// Whether the class is the one above all.
pub fn is_element(metas: &Metas, class: ClassNo) -> bool
    ensures { result ≡ is_element metas.now class.0 }
{
    metas.are_well_formed();
    metas.ancestors_are_least();
    let nowhere = metas.class_count();
    class.0 != nowhere && metas.descends(ClassNo(nowhere), class)
}

fn is_top(metas: &Metas, context: HeadClass) -> bool
    ensures { result ≡ by_class.is_top metas.now context }
{
    match context {
        HeadClass::Missing => false,
        HeadClass::Unknown => false,
        HeadClass::Known(class) => is_element(metas, class),
    }
}

/// The units of the class above all.
fn tops(
    alloc: Global,
    metas: &Metas,
    units: &[Signature],
    group: &[u32],
) -> Result<Seq<u32>, ListFault>
    ensures { IfOk result (λ ns. ns ≡ by_class.tops metas.now units.now group.now) }
{
    let mut numbers = Seq::new(alloc);
    for number in group {
        if is_top(metas, context_at(units, *number)) {
            numbers.push(*number)?;
        }
    }
    Ok(numbers)
}

/// The choice for classes without superclasses and without units of their own.
fn top_choice(
    alloc: Global,
    metas: &Metas,
    units: &[Signature],
    group: &[u32],
) -> Result<FoundUnit, ListFault>
    ensures { IfOk result (λ f. f ≡ by_class.top_choice metas.now units.now group.now) }
{
    let tops = tops(alloc, metas, units, group)?;
    choice_among(alloc, metas, units, tops.as_slice())
}

/// Whether a unit is chosen for the class that is a rival of this one.
fn has_rival(
    metas: &Metas,
    units: &[Signature],
    known: &[Option<FoundUnit>],
    number: u32,
    class: u32,
) -> bool
    ensures { result ≡ by_class.is_rival_in metas.now units.now number (by_class.known_at known.now class) }
{
    match known_at(known, class) {
        Some(FoundUnit::Chosen(other)) => is_rival(metas, units, number, other),
        _ => false,
    }
}

fn have_rivals(
    metas: &Metas,
    units: &[Signature],
    known: &[Option<FoundUnit>],
    classes: &[ClassNo],
    number: u32,
) -> bool
    ensures { result ≡ by_class.some_rival metas.now units.now known.now classes.now number }
{
    classes
        .iter()
        .any(|class| has_rival(metas, units, known, number, class.0))
}

/// What is known of several classes: whether each has a choice, whether one has no single one, and the lowest of the units that are
/// chosen for them, where one is below each.
#[derive(Clone, Copy)]
struct Told {
    is_each: bool,
    is_unclear: bool,
    least: Option<u32>,
}

/// What is known of them with one class more.
fn with_one(metas: &Metas, units: &[Signature], told: Told, choice: Option<FoundUnit>) -> Told
    ensures each { result.is_each ≡ (told.is_each && is_some choice) }
    ensures unclear { result.is_unclear ≡ (told.is_unclear || by_class.is_unclear_in choice) }
    ensures least { (ns : List ℕ) → only.least_from metas.now units.now result.least ns ≡ only.least_from metas.now units.now told.least (by_class.with_chosen choice ns) }
{
    match choice {
        None => Told {
            is_each: false,
            ..told
        },
        Some(FoundUnit::Unclear) => Told {
            is_unclear: true,
            ..told
        },
        Some(FoundUnit::Chosen(number)) => Told {
            least: Some(lower_of(metas, units, told.least, number)),
            ..told
        },
        Some(_) => told,
    }
}

/// What is known of these classes.
fn told_of(
    metas: &Metas,
    units: &[Signature],
    known: &[Option<FoundUnit>],
    classes: &[ClassNo],
) -> Told
    ensures each { result.is_each ≡ by_class.are_known known.now classes.now }
    ensures unclear { result.is_unclear ≡ by_class.some_unclear known.now classes.now }
    ensures least { result.least ≡ only.least metas.now units.now (by_class.chosens known.now classes.now) }
{
    let mut told = Told {
        is_each: true,
        is_unclear: false,
        least: None,
    };
    for class in classes {
        told = with_one(metas, units, told, known_at(known, class.0));
    }
    told
}

/// What classes tell of one below them all, where no other is above it. It is not told where one of them has no single choice, and the
/// lowest of the units that are chosen for the others is the choice for these.
#[inline(never)]
fn joined(
    metas: &Metas,
    units: &[Signature],
    known: &[Option<FoundUnit>],
    classes: &[ClassNo],
) -> Option<FoundUnit>
    ensures { result ≡ by_class.joined metas.now units.now known.now classes.now }
{
    let Told {
        is_each,
        is_unclear,
        least,
    } = told_of(metas, units, known, classes);
    if !is_each {
        return None;
    }
    match least {
        None => Some(if is_unclear {
            FoundUnit::Unclear
        } else {
            FoundUnit::NoUnit
        }),
        Some(number) => {
            if have_rivals(metas, units, known, classes, number) {
                Some(FoundUnit::Unclear)
            } else if is_unclear {
                None
            } else {
                Some(FoundUnit::Chosen(number))
            }
        }
    }
}

/// The choice for a class without units of its own, where its superclasses tell it.
fn inherited(
    metas: &Metas,
    units: &[Signature],
    known: &[Option<FoundUnit>],
    top: FoundUnit,
    class: u32,
) -> Option<FoundUnit>
    ensures { result ≡ by_class.inherited metas.now units.now known.now top (class_at metas.now class).supers }
{
    match supers_at(metas.class_infos(), class) {
        [] => Some(top),
        [above] => known_at(known, above.0),
        supers => joined(metas, units, known, supers),
    }
}

/// The choice for a class by what is known, in time linear in the number of the units where that does not tell it.
fn choice_by(
    metas: &Metas,
    units: &[Signature],
    group: &[u32],
    top: FoundUnit,
    known: &[Option<FoundUnit>],
    class: u32,
) -> FoundUnit
    requires there { class < length known.now }
    requires top { top ≡ by_class.top_choice metas.now units.now group.now }
    requires known { AreKnown metas.now units.now group.now known.now }
    requires distinct { IsDistinct eqb group.now }
    ensures { result ≡ by_class.choice_for metas.now units.now group.now class }
{
    metas.are_well_formed();
    metas.ancestors_are_least();
    if let Some(choice) = known_at(known, class) {
        return choice;
    }
    if let Some(choice) = inherited(metas, units, known, top, class) {
        return choice;
    }
    choice_of(metas, units, group, ClassNo(class))
}

/// Tells the choice for a class, if there is such a class.
fn tell_choice(
    metas: &Metas,
    units: &[Signature],
    group: &[u32],
    top: FoundUnit,
    class: u32,
    known: &mut KnownChoices,
)
    requires top { top ≡ by_class.top_choice metas.now units.now group.now }
    requires known { AreKnown metas.now units.now group.now known.old }
    requires distinct { IsDistinct eqb group.now }
    ensures each { length known.new ≡ length known.old }
    ensures known { AreKnown metas.now units.now group.now known.new }
{
    if (class as usize) < known.len() {
        let choice = choice_by(metas, units, group, top, known.as_slice(), class);
        tell(known, class, Some(choice));
    }
}

/// Tells the choice for each class of an order. Where each comes after its superclasses, most are told by these.
fn tell_all(
    metas: &Metas,
    units: &[Signature],
    group: &[u32],
    top: FoundUnit,
    order: &[u32],
    known: &mut KnownChoices,
)
    requires top { top ≡ by_class.top_choice metas.now units.now group.now }
    requires known { AreKnown metas.now units.now group.now known.old }
    requires distinct { IsDistinct eqb group.now }
    ensures each { length known.new ≡ length known.old }
    ensures known { AreKnown metas.now units.now group.now known.new }
{
    for class in order {
        tell_choice(metas, units, group, top, *class, known);
    }
}

/// Whether the class is concrete and has no single choice.
fn is_stuck(metas: &Metas, class: ClassNo, choice: FoundUnit) -> bool
    ensures { result ≡ by_class.is_stuck_by metas.now class.0 choice }
{
    match choice {
        FoundUnit::Unclear => !metas.is_abstract(class),
        _ => false,
    }
}

/// The choices of all classes, by what is known.
fn choices_by(
    alloc: Global,
    metas: &Metas,
    units: &[Signature],
    group: &[u32],
    top: FoundUnit,
    known: &[Option<FoundUnit>],
) -> Result<ClassChoices, ListFault>
    requires each { length known.now ≡ length metas.now.classes }
    requires top { top ≡ by_class.top_choice metas.now units.now group.now }
    requires known { AreKnown metas.now units.now group.now known.now }
    requires distinct { IsDistinct eqb group.now }
    ensures { IfOk result (AreChosen metas.now units.now group.now) }
{
    let count = metas.class_count();
    let mut each = Seq::with_room(alloc, count as usize)?;
    let mut stuck = no_bits(alloc, count)?;
    for class in 0..count {
        let choice = choice_by(metas, units, group, top, known, class);
        each.push(choice)?;
        mark_if(&mut stuck, is_stuck(metas, ClassNo(class), choice), class);
    }
    Ok(ClassChoices {
        each,
        stuck: emptied(alloc, metas, row_of(stuck)),
    })
}

/// The classes, each after its superclasses.
pub fn class_order(alloc: Global, metas: &Metas) -> Result<Order, ListFault>
    ensures { IfOk result (λ order. IsOrder (of_classes metas.now.classes) order.classes order.ranks) }
{
    metas.are_well_formed();
    let order = order_of(alloc, metas.class_infos(), metas.class_count())?;
    Ok(order)
}

ghost use Rattle.qvt_metas.specs.Tables.{IsOrder, of_classes};

/// The choice for each class, from what its own units tell and then along an order. It is the same along each, and soon told where each
/// class comes after its superclasses.
pub fn all_choices(
    alloc: Global,
    metas: &Metas,
    units: &[Signature],
    group: &[u32],
    order: &[u32],
) -> Result<ClassChoices, ListFault>
    requires { IsDistinct eqb group.now }
    ensures { IfOk result (AreChosen metas.now units.now group.now) }
{
    metas.are_well_formed();
    metas.ancestors_are_least();
    let top = top_choice(alloc, metas, units, group)?;
    let mut known = own_choices(alloc, units, group, metas.class_count())?;
    tell_all(metas, units, group, top, order, &mut known);
    let choices = choices_by(alloc, metas, units, group, top, known.as_slice())?;
    Ok(choices)
}
