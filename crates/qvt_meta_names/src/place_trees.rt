ghost use Rattle.std.specs.Prelude.{◌≡◌, ◌<◌, ◌≤◌, ◌+◌, ◌++◌, ℕ, length, slice_index_or, IfOk};
ghost use Rattle.qvt_meta_names.specs.Rooted.{cell_with, empty_tree, node_with, rest_above, tree_word, GoesOn, HaveDigits, IsTreeWith};

use qvt_base::list_fault::ListFault;
use qvt_base::seq::Seq;
use std::alloc::Global;

fn word_at(words: &[u32], node: u32, digit: u32) -> u32
    requires { digit < 4 }
    ensures { result ≡ slice_index_or words.now (node + digit) 0 }
{
    let at = node as usize + digit as usize;
    if at < words.len() { words[at] } else { 0 }
}

/// The word that a tree of so many levels has for a number.
pub fn tree_word(words: &[u32], levels: u32, root: u32, number: u32) -> u32
    ensures { result ≡ tree_word words.now levels root number }
{
    let mut node = root;
    let mut rest = number;
    for level in 0..levels {
        node = word_at(words, node, rest % 4);
        rest /= 4;
    }
    node
}

fn cell_with(words: &[u32], node: u32, digit: u32, word: u32, place: u32) -> u32
    requires { place < 4 }
    ensures { result ≡ cell_with words.now node digit word place }
{
    if place == digit {
        word
    } else {
        word_at(words, node, place)
    }
}

/// Puts a copy of a node last that has another word for one digit. It is refused where its place does not fit 32 bits.
fn push_node(words: &mut Seq<u32>, node: u32, digit: u32, word: u32) -> Result<u32, ListFault>
    ensures { IfOk result (λ at. (at ≡ length words.old) × (words.new ≡ words.old ++ node_with words.old node digit word)) }
{
    let Ok(at) = u32::try_from(words.len()) else {
        return Err(ListFault::NoMemory);
    };
    let old = words.as_slice();
    let cells = [
        cell_with(old, node, digit, word, 0),
        cell_with(old, node, digit, word, 1),
        cell_with(old, node, digit, word, 2),
        cell_with(old, node, digit, word, 3),
    ];
    words.extend(&cells)?;
    Ok(at)
}

/// Makes a tree that has this word for the number, and gives its root. It takes one node for each
/// level and shares the others with the tree before it, which stays as it is.
pub(crate) fn put_word(
    words: &mut Seq<u32>,
    levels: u32,
    root: u32,
    number: u32,
    word: u32,
) -> Result<u32, ListFault>
    requires empty { GoesOn empty_tree words.old }
    requires word { 0 < word }
    ensures { IfOk result (λ after. IsTreeWith words.old words.new levels root number word after) }
{
    if levels == 0 {
        return Ok(word);
    }
    let child = word_at(words.as_slice(), root, number % 4);
    let below = put_word(words, levels - 1, child, number / 4, word)?;
    push_node(words, root, number % 4, below)
}

/// The words of the empty tree.
pub fn empty_tree(alloc: Global) -> Result<Seq<u32>, ListFault>
    ensures { IfOk result (λ words. words ≡ empty_tree) }
{
    Seq::from_slice(alloc, &[0, 0, 0, 0])
}

/// As many levels as the number has digits.
fn digits_of(number: u32) -> u32
    ensures above { rest_above result number ≡ 0 }
    ensures few { result ≤ number }
{
    if number == 0 {
        0
    } else {
        1 + digits_of(number / 4)
    }
}

fn highest(numbers: &[u32]) -> u32
    ensures { (i : ℕ) → slice_index_or numbers.now i 0 ≤ result }
{
    let mut highest = 0;
    for number in numbers {
        highest = *number.max(&highest);
    }
    highest
}

/// As many levels as each of the numbers needs.
pub fn levels_for(numbers: &[u32]) -> u32
    ensures { HaveDigits numbers.now result }
{
    digits_of(highest(numbers))
}
