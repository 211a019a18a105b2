//! Sets of numbers that are made in place.

ghost use Rattle.std.specs.Prelude.{◌≡◌, ◌<◌, ◌/◌, ◌||◌, ◌&&◌, ◌==◌, ℕ, replicate, length, IfOk};
ghost use Rattle.qvt_metas.specs.Kept.{is_marked};
ghost use Rattle.qvt_counts.specs.Counts.{bits};
ghost use Rattle.qvt_types_choices.specs.Sets.{word_count};

use qvt_base::list_fault::ListFault;
use qvt_base::seq::Seq;
use qvt_metas::row::Row;
use qvt_rows::sets::bit_of;
use std::alloc::Global;

/// How many words a set of numbers below the bound has.
pub fn word_count(bound: u32) -> u32
    ensures { result ≡ word_count bound }
{
    bound.min(bound / 64 + 1)
}

/// As many words without bits as a set of numbers below the bound has.
pub fn no_bits(alloc: Global, bound: u32) -> Result<Seq<u64>, ListFault>
    ensures { IfOk result (λ ws. ws ≡ replicate (word_count bound) 0) }
{
    let mut words = Seq::with_room(alloc, word_count(bound) as usize)?;
    for place in 0..word_count(bound) {
        words.push(0)?;
    }
    Ok(words)
}

/// Puts the number into a set, if it is to be there.
pub fn mark_if(words: &mut Seq<u64>, is_one: bool, number: u32)
    requires { number / 64 < length words.old }
    ensures each { length words.new ≡ length words.old }
    ensures marks { (d : ℕ) → is_marked (bits words.new) d ≡ (is_marked (bits words.old) d || (is_one && (number == d))) }
{
    if is_one {
        let at = (number / 64) as usize;
        let word = words.as_slice()[at];
        words.set(at, word | bit_of(number));
    }
}

/// The set with these words.
pub fn row_of(words: Seq<u64>) -> Row
    ensures { result ≡ bits words }
{
    Row {
        start: 0,
        skipped: 0,
        words,
    }
}
