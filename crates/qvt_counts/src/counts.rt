//! For each number of how many sets it is in.

ghost use Rattle.std.specs.Prelude.{◌≡◌, ◌<◌, ◌+◌, ◌/◌, ◌==◌, ◌&&◌, ◌||◌, not, ℕ, min, length, nat_lt, IfOk};
ghost use Rattle.qvt_metamodel.specs.Kept.{is_marked};
ghost use Rattle.qvt_meta_tables.specs.Tables.{EndsWithin};
ghost use Rattle.qvt_counts.specs.Counts.{bits, count_at, one};

use crate::counter::{Counter, no_counter, where_count, where_some, with_word};
use qvt_base::list_fault::ListFault;
use qvt_base::seq::Seq;
use qvt_meta_tables::rows::end_of;
use qvt_metamodel::row::{Row, word_of};
use qvt_rows::sets::word_without;
use std::alloc::Global;

/// Counts for the numbers of some words.
pub type SetCounts = Seq<Counter>;

/// For each number of as many words the count 0.
pub fn no_counts(alloc: Global, words: u32) -> Result<SetCounts, ListFault>
    ensures each { IfOk result (λ counts. length counts ≡ words) }
    ensures none { IfOk result (λ counts. (d : ℕ) → count_at counts d ≡ 0) }
{
    match vec![in alloc; no_counter(); words as usize] {
        Ok(counts) => Ok(Seq::from_vec(counts)),
        Err(_) => Err(ListFault::NoMemory),
    }
}

/// One more for each number in the set. Nothing is told of a number that has the count 127.
pub fn add_set(counts: &mut SetCounts, bound: u32, set: &Row)
    requires { EndsWithin bound set.now }
    ensures each { length counts.new ≡ length counts.old }
    ensures counts { (d : ℕ) → d / 64 < length counts.old → count_at counts.old d < 127 → count_at counts.new d ≡ count_at counts.old d + one (is_marked set.now d) }
{
    let end = end_of(set, bound) as usize;
    for place in set.skipped as usize..end.min(counts.len()) {
        let counter = with_word(&counts.as_slice()[place], word_of(set, place as u32));
        counts.set(place, counter);
    }
}

/// Puts into a set the numbers of another that have the count.
pub fn put_counted(words: &mut Seq<u64>, bound: u32, set: &Row, counts: &[Counter], count: u32)
    requires set { EndsWithin bound set.now }
    requires each { length words.old ≡ length counts.now }
    requires count { count < 128 }
    ensures each { length words.new ≡ length words.old }
    ensures marks { (d : ℕ) → d / 64 < length words.old → is_marked (bits words.new) d ≡ (is_marked (bits words.old) d || (is_marked set.now d && (count_at counts.now d == count))) }
{
    let end = end_of(set, bound) as usize;
    for place in set.skipped as usize..end.min(counts.len()) {
        let counted = word_of(set, place as u32) & where_count(&counts[place], count);
        let word = words.as_slice()[place];
        words.set(place, word | counted);
    }
}

/// The numbers with a count above 0 that are not in the set.
pub fn counted_without(alloc: Global, counts: &[Counter], words: &[u64]) -> Result<Row, ListFault>
    requires { length words.now ≡ length counts.now }
    ensures each { IfOk result (λ r. r.skipped + length r.words ≡ length counts.now) }
    ensures start { IfOk result (λ r. r.start ≡ 0) }
    ensures marks { IfOk result (λ r. (d : ℕ) → is_marked r d ≡ (nat_lt 0 (count_at counts.now d) && not (is_marked (bits words.now) d))) }
{
    let mut rest = Seq::with_room(alloc, counts.len())?;
    for place in 0..counts.len() {
        rest.push(word_without(where_some(&counts[place]), words[place]))?;
    }
    Ok(Row {
        start: 0,
        skipped: 0,
        words: rest,
    })
}
