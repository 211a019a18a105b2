ghost use Rattle.std.specs.Prelude.{◌≡◌};
ghost use Rattle.qvt_metamodel.specs.Kept.{word_of, is_marked};

use qvt_base::seq::Seq;

/// Which classes are above a class: a bit for each class from the one with the number `start` on,
/// 64 in a word, the lowest first. The first words that have no mark are left out, as many as
/// `skipped` tells.
pub struct Row {
    pub start: u32,
    pub skipped: u32,
    pub words: Seq<u64>,
}

impl Drop for Row {
    fn drop(self) {
        let Row {
            start,
            skipped,
            words,
        } = self;
    }
}

/// The word of a row with this number.
pub fn word_of(row: &Row, number: u32) -> u64
    ensures { result ≡ word_of row.now number }
{
    if number < row.skipped {
        return 0;
    }
    let place = (number - row.skipped) as usize;
    if place < row.words.len() {
        row.words.as_slice()[place]
    } else {
        0
    }
}

/// Whether a class is marked in a row.
pub fn is_marked(row: &Row, class: u32) -> bool
    ensures { result ≡ is_marked row.now class }
{
    if class < row.start {
        return false;
    }
    let bit = class - row.start;
    (word_of(row, bit / 64) >> (bit % 64)) % 2 == 1
}
