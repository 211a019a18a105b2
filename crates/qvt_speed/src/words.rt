//! The words of a call.

use std::alloc::Global;

/// The words of a line, parted by blanks.
pub fn parted<'a>(alloc: Global, line: &'a str) -> Option<Vec<&'a str>> {
    line.split(' ').collect(alloc).ok()
}

/// The word at a place, or an empty one.
pub fn word<'a>(words: &[&'a str], at: usize) -> &'a str {
    match words.get(at) {
        Some(word) => word,
        None => "",
    }
}

/// The number that the word at a place is.
pub fn number(words: &[&str], at: usize) -> Option<u32> {
    word(words, at).parse::<u32>().ok()
}
