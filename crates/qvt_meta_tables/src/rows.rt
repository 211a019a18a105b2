//! Which classes are above each class.

ghost use Rattle.std.specs.Prelude.{replicate, nat_lt, IsTrue, ◌≡◌, ◌<◌, ◌≤◌, ◌+◌, ◌/◌, ℕ, ◌||◌, ◌==◌, length, min, IfOk, slice_index_or};
ghost use Rattle.std.specs.List.{list_any, list_all};
ghost use Rattle.qvt_metamodel.specs.Descends.{reaches};
ghost use Rattle.qvt_metamodel.specs.Kept.{no_row, is_marked};
ghost use Rattle.qvt_meta_tables.specs.Tables.{of_classes, IsOrder, EndsWithin, joined_word, mark_of};

use crate::order::Order;
use crate::tables::{put, supers_at};
use qvt_base::list_fault::ListFault;
use qvt_base::numbers::ClassNo;
use qvt_base::seq::Seq;
use qvt_metamodel::info::ClassInfo;
use qvt_metamodel::row::{Row, word_of};
use std::alloc::Global;

/// Where the words of a row end. Every class has a number below the bound.
pub fn end_of(row: &Row, bound: u32) -> u32
    requires { EndsWithin bound row.now }
    ensures { result ≡ row.now.skipped + length row.now.words }
{
    let _ = bound;
    row.skipped + row.words.len() as u32
}

/// The number of the first word of a row, or this number if it is less or the row has no words.
pub fn first_word(number: u32, row: &Row) -> u32
    ensures number { result ≤ number }
    ensures none { length row.now.words ≡ 0 → result ≡ number }
    ensures first { 0 < length row.now.words → result ≡ min number row.now.skipped }
{
    if row.words.is_empty() {
        number
    } else {
        number.min(row.skipped)
    }
}

/// The word with this number of a row where this class alone is marked.
pub fn mark_of(class: u32, number: u32) -> u64
    ensures { result ≡ mark_of class number }
{
    if class / 64 == number {
        1 << (class % 64)
    } else {
        0
    }
}

/// The words from the first one on that a row with the marks of both and one for this class has, as many as can be taken over: where
/// the one row has no marks, those of the other before the word of the class.
fn words_over(
    alloc: Global,
    row: &Row,
    class: u32,
    other: &Row,
    first: u32,
    room: usize,
) -> Result<Seq<u64>, ListFault>
    requires first { first ≤ class / 64 }
    ensures few { IfOk result (λ ws. first + length ws ≤ class / 64) }
    ensures words { IfOk result (λ ws. (i : ℕ) → i < length ws → slice_index_or ws i 0 ≡ joined_word row.now class other.now (first + i)) }
{
    let mut words = Seq::with_room(alloc, room)?;
    if row.words.is_empty() && other.skipped == first {
        let count = other.words.len().min((class / 64 - first) as usize);
        words.extend(&other.words.as_slice()[..count])?;
    }
    Ok(words)
}

/// A row with the marks of both and one for this class.
fn with_row(alloc: Global, bound: u32, row: &Row, class: u32, other: &Row) -> Result<Row, ListFault>
    requires class { class < bound }
    requires row { EndsWithin bound row.now }
    requires other { EndsWithin bound other.now }
    ensures marks { IfOk result (λ r. (d : ℕ) → is_marked r d ≡ (is_marked row.now d || (class == d) || is_marked other.now d)) }
    ensures within { IfOk result (λ r. EndsWithin bound r) }
{
    let first = first_word(first_word(class / 64, row), other);
    let end = (class / 64 + 1)
        .max(end_of(row, bound))
        .max(end_of(other, bound));
    let room = end.saturating_sub(first) as usize;
    let mut words = words_over(alloc, row, class, other, first, room)?;
    let begin = first + words.len() as u32;
    for number in begin..end {
        words.push(word_of(row, number) | mark_of(class, number) | word_of(other, number))?;
    }
    Ok(Row {
        start: 0,
        skipped: first,
        words,
    })
}

/// The row of a class, by those of its superclasses.
fn row_at(alloc: Global, bound: u32, rows: &Vec<Row>, supers: &[ClassNo]) -> Result<Row, ListFault>
    requires count { length rows.now.items ≡ bound }
    requires live { IsTrue (list_all (λ s. nat_lt s.0 bound) supers.now) }
    requires rows { (c : ℕ) → EndsWithin bound (slice_index_or rows.now.items c no_row) }
    ensures marks { IfOk result (λ r. (d : ℕ) → is_marked r d ≡ list_any (λ s. (s.0 == d) || is_marked (slice_index_or rows.now.items s.0 no_row) d) supers.now) }
    ensures within { IfOk result (λ r. EndsWithin bound r) }
{
    let mut row = Row {
        start: 0,
        skipped: 0,
        words: Seq::new(alloc),
    };
    for superclass in supers {
        row = with_row(
            alloc,
            bound,
            &row,
            superclass.0,
            &rows[superclass.0 as usize],
        )?;
    }
    Ok(row)
}

/// A row without marks for each of as many classes.
fn empty_rows(alloc: Global, count: u32) -> Result<Vec<Row>, ListFault>
    ensures { IfOk result (λ v. v.items ≡ replicate count no_row) }
{
    let mut rows = Seq::with_room(alloc, count as usize)?;
    for at in 0..count {
        rows.push(Row {
            start: 0,
            skipped: 0,
            words: Seq::new(alloc),
        })?;
    }
    Ok(rows.into_vec())
}

/// Which classes are above each class.
pub fn rows_of(
    alloc: Global,
    order: &Order,
    classes: &[ClassInfo],
    count: u32,
) -> Result<Vec<Row>, ListFault>
    requires count { length classes.now ≡ count }
    requires order { IsOrder (of_classes classes.now) order.now.classes order.now.ranks }
    ensures each { IfOk result (λ v. length v.items ≡ count) }
    ensures starts { IfOk result (λ v. (c : ℕ) → (slice_index_or v.items c no_row).start ≡ 0) }
    ensures ancestors { IfOk result (λ v. (c d : ℕ) → is_marked (slice_index_or v.items c no_row) d ≡ reaches (of_classes classes.now) c d) }
{
    let mut rows = empty_rows(alloc, count)?;
    for class in order.classes.as_slice() {
        let row = row_at(alloc, count, &rows, supers_at(classes, *class))?;
        put(&mut rows, *class as usize, row);
    }
    Ok(rows)
}
