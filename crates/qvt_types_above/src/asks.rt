//! Whether a unit asks all that is told of others. Most units need not be compared with each of a list, since the list has a guard.

ghost use Rattle.std.specs.Prelude.{◌≡◌, [], length, slice_index_or, IsTrue};
ghost use Rattle.qvt_types_above.specs.Asks as asks;
ghost use Rattle.qvt_types_above.specs.Tells.{AsksAll, AsksTold, AsksClasses, IsGuard, AreGuarded};

use crate::above::{Above, above_at, list_at};
use crate::bounds::{asks_bounded, bound_for};
use crate::covers::covers_at;
use qvt_base::numbers::ClassNo;
use qvt_base::seq::Seq;
use qvt_types_groups::signature::Signature;
use qvt_types_laws::laws::same_means_equal;
use qvt_types_paths::metas::Metas;

/// Of a list a unit that asks all that its units ask, and a class by which they are bounded, where they are known.
#[derive(Clone, Copy)]
pub struct Guard {
    pub unit: Option<u32>,
    pub class: Option<ClassNo>,
}

/// The guard of each list by its place.
pub type Guards = Seq<Guard>;

fn guard_at(guards: &[Guard], place: u32) -> Guard
    ensures { result ≡ asks.guard_at guards.now place }
{
    let at = place as usize;
    if at < guards.len() {
        guards[at]
    } else {
        Guard {
            unit: None,
            class: None,
        }
    }
}

/// Makes it the guard of a list, where the list is there.
fn put_guard(guards: &mut Guards, place: u32, guard: Guard)
    ensures { guards.new ≡ slice_set guards.old place guard }
{
    let at = place as usize;
    if at < guards.len() {
        guards.set(at, guard);
    }
}

ghost use Rattle.std.specs.Prelude.{slice_set};

fn asks_unit(metas: &Metas, units: &[Signature], number: u32, guard: Option<u32>) -> bool
    ensures { result ≡ asks.asks_unit metas.now units.now number guard }
{
    match guard {
        None => false,
        Some(guard) => covers_at(metas, units, number, guard),
    }
}

fn asks_class(
    metas: &Metas,
    units: &[Signature],
    number: u32,
    list: &[u32],
    class: Option<ClassNo>,
) -> bool
    ensures { result ≡ asks.asks_class metas.now units.now number list.now class }
{
    match class {
        None => false,
        Some(class) => asks_bounded(metas, units, number, list, class),
    }
}

fn asks_guard(metas: &Metas, units: &[Signature], number: u32, list: &[u32], guard: Guard) -> bool
    ensures { result ≡ asks.asks_guard metas.now units.now number list.now guard }
{
    asks_unit(metas, units, number, guard.unit)
        || asks_class(metas, units, number, list, guard.class)
}

fn asks_each(metas: &Metas, units: &[Signature], number: u32, list: &[u32]) -> bool
    ensures { result ≡ asks.asks_each metas.now units.now number list.now }
{
    list.iter()
        .all(|other| covers_at(metas, units, number, *other))
}

/// The guard that a list has once a unit was compared with each of it and asks all that they ask.
fn guard_by(metas: &Metas, units: &[Signature], list: &[u32], guard: Guard, number: u32) -> Guard
    requires asks { AsksAll metas.now units.now number list.now }
    requires guard { IsGuard metas.now units.now list.now guard }
    ensures { IsGuard metas.now units.now list.now result }
{
    let class = match guard.class {
        None => bound_for(metas, units, list, number),
        Some(class) => Some(class),
    };
    Guard {
        unit: Some(number),
        class,
    }
}

/// Whether it asks all that those of a list ask.
fn asks_listed(
    metas: &Metas,
    units: &[Signature],
    lists: &[Seq<u32>],
    guards: &mut Guards,
    number: u32,
    place: u32,
) -> bool
    requires { AreGuarded metas.now units.now lists.now guards.old }
    ensures asks { IsTrue result → AsksAll metas.now units.now number (slice_index_or lists.now place []) }
    ensures guards { AreGuarded metas.now units.now lists.now guards.new }
    ensures each { length guards.new ≡ length guards.old }
{
    same_means_equal();
    metas.are_well_formed();
    let list = list_at(lists, place);
    let guard = guard_at(guards.as_slice(), place);
    if asks_guard(metas, units, number, list, guard) {
        return true;
    }
    if asks_each(metas, units, number, list) {
        put_guard(guards, place, guard_by(metas, units, list, guard, number));
        return true;
    }
    false
}

/// Whether it asks all that those ask by which something is told.
fn asks_told(
    metas: &Metas,
    units: &[Signature],
    lists: &[Seq<u32>],
    guards: &mut Guards,
    number: u32,
    told: Above,
) -> bool
    requires { AreGuarded metas.now units.now lists.now guards.old }
    ensures asks { IsTrue result → AsksTold metas.now units.now lists.now number told }
    ensures guards { AreGuarded metas.now units.now lists.now guards.new }
    ensures each { length guards.new ≡ length guards.old }
{
    same_means_equal();
    metas.are_well_formed();
    match told {
        Above::Untold => false,
        Above::Nothing => true,
        Above::Least(least) => covers_at(metas, units, number, least),
        Above::Both(first, second) => {
            covers_at(metas, units, number, first) && covers_at(metas, units, number, second)
        }
        Above::Listed(place) => asks_listed(metas, units, lists, guards, number, place),
    }
}

/// The same of what is told of each of these classes.
pub fn asks_classes(
    metas: &Metas,
    units: &[Signature],
    lists: &[Seq<u32>],
    row: &[Above],
    guards: &mut Guards,
    number: u32,
    classes: &[ClassNo],
) -> bool
    requires { AreGuarded metas.now units.now lists.now guards.old }
    ensures asks { IsTrue result → AsksClasses metas.now units.now lists.now row.now number classes.now }
    ensures guards { AreGuarded metas.now units.now lists.now guards.new }
    ensures each { length guards.new ≡ length guards.old }
{
    for class in classes {
        let told = above_at(row, class.0);
        if !asks_told(metas, units, lists, guards, number, told) {
            return false;
        }
    }
    true
}
