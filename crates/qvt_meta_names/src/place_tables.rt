ghost use Rattle.std.specs.Prelude.{◌≡◌, ◌<◌, ◌≤◌, ◌+◌, ◌==◌, ℕ, length, position, slice_index_or, take, [], IfOk};
ghost use Rattle.qvt_meta_names.specs.Named.{number_at};
ghost use Rattle.qvt_metamodel.specs.Lists.{all_lists};
ghost use Rattle.qvt_meta_names.specs.Rooted.{told_place, AreReady, FindsOn, FindsPlaces, ArePlaced};

use crate::place_trees::{empty_tree, levels_for, put_word, tree_word};
use qvt_base::list_fault::ListFault;
use qvt_base::numbers::FeatureNo;
use qvt_base::seq::Seq;
use qvt_metamodel::lists::FeatureLists;
use std::alloc::Global;

/// For each line of features a tree that finds the first place of a name by its number. The tree of a
/// line that begins with another takes memory only for the features that the line has more.
pub struct PlaceTables {
    pub words: Seq<u32>,
    pub roots: Seq<u32>,
    pub levels: u32,
}

impl Drop for PlaceTables {
    fn drop(self) {
        let PlaceTables {
            words,
            roots,
            levels,
        } = self;
    }
}

impl PlaceTables {
    /// No lines. It takes no memory.
    pub fn new(alloc: Global) -> PlaceTables
        ensures { result ≡ record { words = []; roots = []; levels = 0 } }
    {
        PlaceTables {
            words: Seq::new(alloc),
            roots: Seq::new(alloc),
            levels: 0,
        }
    }
}

fn number_at(numbers: &[u32], feature: FeatureNo) -> u32
    ensures { result ≡ number_at numbers.now feature }
{
    let at = feature.0 as usize;
    if at < numbers.len() { numbers[at] } else { 0 }
}

/// The place that a word tells, where the feature there has this number.
fn told_place(numbers: &[u32], features: &[FeatureNo], word: u32, number: u32) -> Option<usize>
    ensures { result ≡ told_place numbers.now features.now word number }
{
    if word == 0 {
        return None;
    }
    let place = (word - 1) as usize;
    if place < features.len() && number == number_at(numbers, features[place]) {
        Some(place)
    } else {
        None
    }
}

/// Puts the feature at this place into the tree of those before it, if none of them has its name, and gives the root.
fn put_place(
    words: &mut Seq<u32>,
    levels: u32,
    numbers: &[u32],
    line: &[FeatureNo],
    place: usize,
    root: u32,
) -> Result<u32, ListFault>
    requires ready { AreReady numbers.now words.old levels }
    requires within { place < length line.now }
    requires before { FindsPlaces numbers.now (take place line.now) words.old levels root }
    ensures { IfOk result (λ after. FindsOn numbers.now (take (place + 1) line.now) words.old words.new levels after) }
{
    let Ok(told) = u32::try_from(place + 1) else {
        return Err(ListFault::NoMemory);
    };
    let (before, _) = line.split_at(place);
    let number = number_at(numbers, line[place]);
    let word = tree_word(words.as_slice(), levels, root, number);
    match told_place(numbers, before, word, number) {
        Some(_) => Ok(root),
        None => put_word(words, levels, root, number, told),
    }
}

/// Puts the features of a line from this place on into the tree of those before it, and gives the root.
fn put_places(
    words: &mut Seq<u32>,
    levels: u32,
    numbers: &[u32],
    line: &[FeatureNo],
    known: usize,
    root: u32,
) -> Result<u32, ListFault>
    requires ready { AreReady numbers.now words.old levels }
    requires within { known ≤ length line.now }
    requires before { FindsPlaces numbers.now (take known line.now) words.old levels root }
    ensures { IfOk result (λ after. FindsOn numbers.now line.now words.old words.new levels after) }
{
    let mut after = root;
    for place in known..line.len() {
        after = put_place(words, levels, numbers, line, place, after)?;
    }
    Ok(after)
}

/// Puts the features of a line into the tree of what it begins with, and gives the root.
fn put_line(
    words: &mut Seq<u32>,
    levels: u32,
    numbers: &[u32],
    lists: &FeatureLists,
    roots: &[u32],
    line: usize,
) -> Result<u32, ListFault>
    requires ready { AreReady numbers.now words.old levels }
    requires next { length roots.now ≡ line }
    requires within { line < length lists.now.lines }
    requires before { (l : ℕ) → l < line → FindsPlaces numbers.now (slice_index_or lists.now.lines l []) words.old levels (slice_index_or roots.now l 0) }
    ensures { IfOk result (λ after. FindsOn numbers.now (slice_index_or lists.now.lines line []) words.old words.new levels after) }
{
    let features = lists.lines()[line].as_slice();
    match lists.begin(line) {
        None => put_places(words, levels, numbers, features, 0, 0),
        Some(front) => {
            let root = roots[front.line];
            put_places(words, levels, numbers, features, front.count, root)
        }
    }
}

/// For each line the tree in which it is searched. What a line begins with is not looked at again.
/// It is refused as out of memory where the words of the trees, or a place, do not fit 32 bits.
pub fn place_tables(
    alloc: Global,
    numbers: &[u32],
    lists: &FeatureLists,
) -> Result<PlaceTables, ListFault>
    ensures { IfOk result (λ t. ArePlaced numbers.now lists.now.lines t) }
{
    let levels = levels_for(numbers);
    let mut words = empty_tree(alloc)?;
    let mut roots = Seq::new(alloc);
    for line in 0..lists.lines().len() {
        let root = put_line(&mut words, levels, numbers, lists, roots.as_slice(), line)?;
        roots.push(root)?;
    }
    Ok(PlaceTables {
        words,
        roots,
        levels,
    })
}

/// The place of the first feature of a class whose name has this number. The first such place of
/// the line is the class's own where the class has as many of the line.
pub fn place_in(
    numbers: &[u32],
    lists: &FeatureLists,
    tables: &PlaceTables,
    class: usize,
    number: u32,
) -> Option<usize>
    requires { ArePlaced numbers.now lists.now.lines tables.now }
    ensures { result ≡ position (λ f. number == number_at numbers.now f) (slice_index_or (all_lists lists.now) class []) }
{
    let Some(front) = lists.front(class) else {
        return None;
    };
    let root = tables.roots.as_slice()[front.line];
    let word = tree_word(tables.words.as_slice(), tables.levels, root, number);
    told_place(numbers, lists.at(class), word, number)
}
