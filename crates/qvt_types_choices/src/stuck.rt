//! The classes without a single choice among a few units of a name, by sets of classes and of how many of these each class is.

ghost use Rattle.std.specs.Prelude.{◌≡◌, ◌<◌, ◌≤◌, ◌+◌, ◌/◌, ◌&&◌, false, eqb, length, nat_lt, IfOk, IsTrue};
ghost use Rattle.std.specs.List.{list_any, IsDistinct};
ghost use Rattle.qvt_types_units.specs.Choice as choice;
ghost use Rattle.qvt_types_choices.specs.Only as only;
ghost use Rattle.qvt_counts.specs.Counts.{bits, count_at, one};
ghost use Rattle.qvt_types_units.specs.Overrides.{is_strictly_below};
ghost use Rattle.qvt_types_choices.specs.HowMany.{how_many};
ghost use Rattle.qvt_types_choices.specs.Sets.{IsSetOf, AreSets, word_count};
ghost use Rattle.qvt_types_choices.specs.Stuck.{is_stuck};

use crate::bits::{no_bits, word_count};
use crate::class_sets::{ClassSets, set_below};
use crate::only::is_rival;
use qvt_base::list_fault::ListFault;
use qvt_base::seq::Seq;
use qvt_counts::counter::Counter;
use qvt_counts::counts::{SetCounts, add_set, counted_without, no_counts, put_counted};
use qvt_metas::row::Row;
use qvt_rows::sets::{empty_row, is_subset, overlap, without};
use qvt_types_paths::metas::Metas;
use qvt_types_units::choice::context_at;
use qvt_types_units::overrides::is_strictly_below;
use qvt_types_units::signature::{HeadClass, Signature};
use std::alloc::Global;

/// The set of the classes that the unit is above.
fn set_of<'a>(metas: &Metas, units: &[Signature], sets: &'a ClassSets, number: u32) -> &'a Row
    requires { AreSets metas.now sets.now }
    ensures { IsSetOf metas.now (choice.is_context_above metas.now (choice.context_at units.now number)) result.now }
{
    match context_at(units, number) {
        HeadClass::Missing => &sets.none,
        HeadClass::Unknown => &sets.none,
        HeadClass::Known(class) => set_below(metas, sets, class),
    }
}

/// How many of the units are above each class.
fn counts_of(
    alloc: Global,
    metas: &Metas,
    units: &[Signature],
    sets: &ClassSets,
    group: &[u32],
) -> Result<SetCounts, ListFault>
    requires sets { AreSets metas.now sets.now }
    requires few { length group.now ≤ 126 }
    ensures each { IfOk result (λ counts. length counts ≡ word_count (length metas.now.classes)) }
    ensures counts { IfOk result (λ counts. (d : ℕ) → d / 64 < length counts → count_at counts d ≡ how_many (λ n. nat_lt d (length metas.now.classes) && choice.is_context_above metas.now (choice.context_at units.now n) d) group.now) }
{
    let count = metas.class_count();
    let mut counts = no_counts(alloc, word_count(count))?;
    for number in group {
        add_set(&mut counts, count, set_of(metas, units, sets, *number));
    }
    Ok(counts)
}

/// 1 where it is so.
#[tactic(auto, unfolding(qvt_counts::specs::Counts::one))]
fn one_if(is_so: bool) -> u32
    ensures { result ≡ one is_so }
{
    if is_so { 1 } else { 0 }
}

/// One more than the number of units that are strictly above this one.
fn level_of(metas: &Metas, units: &[Signature], group: &[u32], number: u32) -> u32
    requires few { length group.now ≤ 126 }
    ensures { result ≡ how_many (λ k. is_strictly_below metas.now (choice.context_at units.now number) (choice.context_at units.now k)) group.now + 1 }
{
    let context = context_at(units, number);
    let mut level = 1;
    for other in group {
        level += one_if(is_strictly_below(metas, context, context_at(units, *other)));
    }
    level
}

/// The words of the set of the classes that have a single choice. A unit is that of a class below it where as many of the units are above
/// the class as strictly above the unit, and itself.
fn words_of_singles(
    alloc: Global,
    metas: &Metas,
    units: &[Signature],
    sets: &ClassSets,
    group: &[u32],
    counts: &[Counter],
) -> Result<Seq<u64>, ListFault>
    requires sets { AreSets metas.now sets.now }
    requires few { length group.now ≤ 126 }
    requires distinct { IsDistinct eqb group.now }
    requires each { length counts.now ≡ word_count (length metas.now.classes) }
    requires counts { (d : ℕ) → d / 64 < length counts.now → count_at counts.now d ≡ how_many (λ n. nat_lt d (length metas.now.classes) && choice.is_context_above metas.now (choice.context_at units.now n) d) group.now }
    ensures each { IfOk result (λ words. length words ≡ length counts.now) }
    ensures marks { IfOk result (λ words. IsSetOf metas.now (λ d. list_any (λ n. only.is_only metas.now units.now group.now n d) group.now) (bits words)) }
{
    metas.are_well_formed();
    let count = metas.class_count();
    let mut words = no_bits(alloc, count)?;
    for number in group {
        let set = set_of(metas, units, sets, *number);
        let level = level_of(metas, units, group, *number);
        put_counted(&mut words, count, set, counts, level);
    }
    Ok(words)
}

/// Whether each of the two units is a rival of the other. Two are asked once, in the order of their numbers.
fn are_rivals(metas: &Metas, units: &[Signature], number: u32, other: u32) -> bool
    ensures { result ≡ only.are_rivals metas.now units.now number other }
{
    number < other && is_rival(metas, units, number, other) && is_rival(metas, units, other, number)
}

/// Whether the two units are rivals of each other, and a class is below both.
fn is_contested(
    metas: &Metas,
    units: &[Signature],
    sets: &ClassSets,
    number: u32,
    other: u32,
) -> bool
    requires { AreSets metas.now sets.now }
    ensures { result ≡ only.is_contested metas.now units.now number other }
{
    are_rivals(metas, units, number, other)
        && overlap(
            metas.class_count(),
            set_of(metas, units, sets, number),
            set_of(metas, units, sets, other),
        )
}

/// Whether the unit and one of the others are such rivals.
fn is_contested_by_any(
    metas: &Metas,
    units: &[Signature],
    sets: &ClassSets,
    group: &[u32],
    number: u32,
) -> bool
    requires { AreSets metas.now sets.now }
    ensures { result ≡ list_any (only.is_contested metas.now units.now number) group.now }
{
    group
        .iter()
        .any(|other| is_contested(metas, units, sets, number, *other))
}

/// Whether two of the units are such rivals.
fn are_contested(metas: &Metas, units: &[Signature], sets: &ClassSets, group: &[u32]) -> bool
    requires { AreSets metas.now sets.now }
    ensures { result ≡ list_any (λ n. list_any (only.is_contested metas.now units.now n) group.now) group.now }
{
    group.iter().any(|number| is_contested_by_any(metas, units, sets, group, *number))
}

/// The set, without words if no class is in it.
pub fn emptied(alloc: Global, metas: &Metas, set: Row) -> Row
    requires { EndsWithin (length metas.now.classes) set }
    ensures { (p : ℕ → Bool) → IsSetOf metas.now p set → IsSetOf metas.now p result }
{
    let none = empty_row(alloc);
    if is_subset(metas.class_count(), &set, &none) {
        none
    } else {
        set
    }
}

ghost use Rattle.std.specs.Prelude.{ℕ, Bool};
ghost use Rattle.qvt_metas.specs.Tables.{EndsWithin};

/// Of so many units each is compared with each, which takes no longer than to count.
const MOST_COMPARED: usize = 6;

/// Whether there are so few units that they are compared, and no two of them are rivals of each other with a class below both.
fn are_apart(metas: &Metas, units: &[Signature], sets: &ClassSets, group: &[u32]) -> bool
    requires { AreSets metas.now sets.now }
    ensures { IsTrue result → list_any (λ n. list_any (only.is_contested metas.now units.now n) group.now) group.now ≡ false }
{
    group.len() <= MOST_COMPARED && !are_contested(metas, units, sets, group)
}

/// The set of the concrete classes that some of the units are above and that have no single choice, of up to 126 units: each is asked
/// whether it is strictly below each, and the set of each is gone through twice. Where no two of them are rivals of each other with a
/// class below both, there is none: those above a class then stand one strictly below another.
pub fn set_of_stuck(
    alloc: Global,
    metas: &Metas,
    units: &[Signature],
    sets: &ClassSets,
    group: &[u32],
) -> Result<Row, ListFault>
    requires sets { AreSets metas.now sets.now }
    requires distinct { IsDistinct eqb group.now }
    requires few { length group.now ≤ 126 }
    ensures { IfOk result (IsSetOf metas.now (is_stuck metas.now units.now group.now)) }
{
    metas.are_well_formed();
    if are_apart(metas, units, sets, group) {
        return Ok(empty_row(alloc));
    }
    let counts = counts_of(alloc, metas, units, sets, group)?;
    let singles = words_of_singles(alloc, metas, units, sets, group, counts.as_slice())?;
    let others = counted_without(alloc, counts.as_slice(), singles.as_slice())?;
    let stuck = without(alloc, metas.class_count(), &others, &sets.abstracts)?;
    Ok(emptied(alloc, metas, stuck))
}
