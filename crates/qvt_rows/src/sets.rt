//! Rows as sets of numbers. Each function takes time in the words of its rows, from the first that
//! is there to the last.

ghost use Rattle.std.specs.Prelude.{◌≡◌, ◌<◌, ◌≤◌, ◌+◌, min, ◌%◌, ◌^◌, ◌↔◌, ℕ, ◌||◌, ◌&&◌, not, length, IfOk, IsTrue, OnErr, OnOk};
ghost use Rattle.qvt_metamodel.specs.Kept.{no_row, is_bit, is_marked};
ghost use Rattle.qvt_meta_tables.specs.Tables.{EndsWithin};
ghost use Rattle.qvt_rows.specs.Sets.{Overlap, IsSubset, IsLengthened, ArePut};

use qvt_base::list_fault::ListFault;
use qvt_base::seq::Seq;
use qvt_meta_tables::rows::{end_of, first_word};
use qvt_metamodel::row::{Row, word_of};
use std::alloc::Global;

/// The word where the bit of the number alone is.
pub fn bit_of(number: u32) -> u64
    ensures { result ≡ 2 ^ (number % 64) }
{
    1 << (number % 64)
}

/// The marks of a word that the other does not have.
pub fn word_without(one: u64, other: u64) -> u64
    ensures { (k : ℕ) → k < 64 → is_bit result k ≡ (is_bit one k && not (is_bit other k)) }
{
    one & !other
}

/// The set without numbers.
pub fn empty_row(alloc: Global) -> Row
    ensures { result ≡ no_row }
{
    Row {
        start: 0,
        skipped: 0,
        words: Seq::new(alloc),
    }
}

/// The numbers that are in one of the sets, or in both.
pub fn united(alloc: Global, bound: u32, one: &Row, other: &Row) -> Result<Row, ListFault>
    requires one { EndsWithin bound one.now }
    requires other { EndsWithin bound other.now }
    ensures marks { IfOk result (λ r. (d : ℕ) → is_marked r d ≡ (is_marked one.now d || is_marked other.now d)) }
    ensures within { IfOk result (λ r. EndsWithin bound r) }
{
    let end = end_of(one, bound).max(end_of(other, bound));
    let first = first_word(first_word(end, one), other);
    let mut words = Seq::with_room(alloc, end.saturating_sub(first) as usize)?;
    for place in first..end {
        words.push(word_of(one, place) | word_of(other, place))?;
    }
    Ok(Row {
        start: 0,
        skipped: first,
        words,
    })
}

/// Puts the words of another set behind those of a set, from where these end, and words without marks between. For want of memory
/// the set has the numbers that it had.
fn lengthen(row: &mut Row, bound: u32, other: &Row) -> Result<(), ListFault>
    requires row { EndsWithin bound row.old }
    requires other { EndsWithin bound other.now }
    requires first { row.old.skipped ≤ other.now.skipped }
    ensures within { EndsWithin bound row.new }
    ensures ok { OnOk result (IsLengthened row.old other.now row.new) }
    ensures err { OnErr result ((d : ℕ) → is_marked row.new d ≡ is_marked row.old d) }
{
    let end = end_of(row, bound);
    if end_of(other, bound) <= end {
        return Ok(());
    }
    for place in end..other.skipped {
        row.words.push(0)?;
    }
    let (_, rest) = other
        .words
        .as_slice()
        .split_at((end.max(other.skipped) - other.skipped) as usize);
    row.words.extend(rest)?;
    Ok(())
}

/// Puts the numbers of another set before this place into a set that has words there.
fn put_words(row: &mut Row, bound: u32, other: &Row, end: u32)
    requires row { EndsWithin bound row.old }
    requires other { EndsWithin bound other.now }
    requires first { row.old.skipped ≤ other.now.skipped }
    requires end { min end (other.now.skipped + length other.now.words) ≤ row.old.skipped + length row.old.words }
    ensures within { EndsWithin bound row.new }
    ensures words { ArePut end row.old other.now row.new }
{
    for place in other.skipped..end_of(other, bound).min(end) {
        let word = word_of(row, place) | word_of(other, place);
        row.words.set((place - row.skipped) as usize, word);
    }
}

/// Puts the numbers of another set into a set, in time in the words of the other alone where the
/// set has words from the first of the other on. For want of memory the set has the numbers that it
/// had.
pub fn unite(alloc: Global, bound: u32, row: &mut Row, other: &Row) -> Result<(), ListFault>
    requires row { EndsWithin bound row.old }
    requires other { EndsWithin bound other.now }
    ensures marks { OnOk result ((d : ℕ) → is_marked row.new d ≡ (is_marked row.old d || is_marked other.now d)) }
    ensures within { EndsWithin bound row.new }
    ensures err { OnErr result ((d : ℕ) → is_marked row.new d ≡ is_marked row.old d) }
{
    if row.words.is_empty() || other.skipped < row.skipped {
        *row = united(alloc, bound, row, other)?;
        return Ok(());
    }
    let end = end_of(row, bound);
    lengthen(row, bound, other)?;
    put_words(row, bound, other, end);
    Ok(())
}

/// The numbers of the first set that are not in the other.
pub fn without(alloc: Global, bound: u32, one: &Row, other: &Row) -> Result<Row, ListFault>
    requires one { EndsWithin bound one.now }
    requires other { EndsWithin bound other.now }
    ensures marks { IfOk result (λ r. (d : ℕ) → is_marked r d ≡ (is_marked one.now d && not (is_marked other.now d))) }
    ensures within { IfOk result (λ r. EndsWithin bound r) }
{
    let mut words = Seq::with_room(alloc, one.words.len())?;
    for place in one.skipped..end_of(one, bound) {
        words.push(word_without(word_of(one, place), word_of(other, place)))?;
    }
    Ok(Row {
        start: 0,
        skipped: one.skipped,
        words,
    })
}

/// Whether a number is in both sets.
pub fn overlap(bound: u32, one: &Row, other: &Row) -> bool
    requires one { EndsWithin bound one.now }
    requires other { EndsWithin bound other.now }
    ensures { IsTrue result ↔ Overlap one.now other.now }
{
    for place in one.skipped.max(other.skipped)..end_of(one, bound).min(end_of(other, bound)) {
        if word_of(one, place) & word_of(other, place) != 0 {
            return true;
        }
    }
    false
}

/// Whether each number of the first set is in the other.
pub fn is_subset(bound: u32, one: &Row, other: &Row) -> bool
    requires one { EndsWithin bound one.now }
    requires other { EndsWithin bound other.now }
    ensures { IsTrue result ↔ IsSubset one.now other.now }
{
    for place in one.skipped..end_of(one, bound) {
        if word_without(word_of(one, place), word_of(other, place)) != 0 {
            return false;
        }
    }
    true
}
