//! The lists of features of classes: each is the first ones of a line.

ghost use Rattle.std.specs.Prelude.{◌≡◌, ◌<◌, ◌+◌, ◌^◌, ◌∷◌, ◌++◌, [], length, map, option_map, replicate, slice_get, slice_index_or, slice_set, IfOk, IfSome, None, OnErr, OnOk};
ghost use Rattle.std.specs.List.{All};
ghost use Rattle.qvt_metamodel.specs.Lists.{all_lists, front_of, AreMapped, BeginsWith, HasFront, IsLineFront};

use crate::copied::{copies, joined};
use crate::front::Front;
use qvt_base::copied::Copied;
use qvt_base::list_fault::ListFault;
use qvt_base::lists::FeatureNoList;
use qvt_base::numbers::FeatureNo;
use qvt_base::seq::Seq;
use std::alloc::Global;
use std::marker::Model;

/// Lists of features by the numbers of their classes. A list that goes on from another takes memory
/// only for what it has more, if no other list went on from there before. There is room for so many
/// features in lines of their own: with more, a list is refused as out of memory.
#[derive(Drop)]
pub struct FeatureLists {
    lines: Vec<FeatureNoList>,
    begins: Begins,
    fronts: Seq<Front>,
    room: usize,
}

/// For each line the front of a line before it that it begins with, where that is known.
type Begins = Seq<Option<Front>>;

impl Model for FeatureLists {
    ghost use Rattle.qvt_metamodel.specs.Lists.{AreLined, Lists};

    ghost Value = { Lists };

    ghost view = { λ ls. record { lines = ls.lines.items; fronts = ls.fronts } };

    ghost invariant = { λ ls. AreLined ls.lines.items ls.begins ls.fronts };
}

/// Takes room for so many features, where there is as much.
fn take_room(room: &mut usize, count: usize) -> Result<(), ListFault>
    ensures ok { OnOk result (room.new + count ≡ room.old) }
    ensures err { OnErr result (room.new ≡ room.old) }
{
    let Some(rest) = room.checked_sub(count) else {
        return Err(ListFault::NoMemory);
    };
    *room = rest;
    Ok(())
}

/// One line without features.
fn one_line(alloc: Global) -> Result<Vec<FeatureNoList>, ListFault>
    ensures { IfOk result (λ v. v.items ≡ replicate 1 []) }
{
    let mut lines = Seq::new(alloc);
    lines.push(Seq::new(alloc))?;
    Ok(lines.into_vec())
}

/// As many empty lists.
fn empty_fronts(alloc: Global, count: usize) -> Result<Seq<Front>, ListFault>
    ensures { IfOk result (λ s. s ≡ replicate count (record { line = 0; count = 0 })) }
{
    let mut fronts = Seq::with_room(alloc, count)?;
    for at in 0..count {
        fronts.push(Front { line: 0, count: 0 })?;
    }
    Ok(fronts)
}

/// Puts a line last.
fn push_line(lines: &mut Vec<FeatureNoList>, line: FeatureNoList) -> Result<(), ListFault>
    ensures ok { OnOk result (lines.new.items ≡ lines.old.items ++ line ∷ []) }
    ensures err { OnErr result (lines.new.items ≡ lines.old.items) }
{
    match lines.push(line) {
        Ok(()) => Ok(()),
        Err(_) => Err(ListFault::NoMemory),
    }
}

/// Puts these features last in a line, and gives its length.
fn extend_line(
    lines: &mut Vec<FeatureNoList>,
    at: usize,
    features: &[FeatureNo],
) -> Result<usize, ListFault>
    requires { at < length lines.old.items }
    ensures ok { OnOk result (lines.new.items ≡ slice_set lines.old.items at (slice_index_or lines.old.items at [] ++ features.now)) }
    ensures length { IfOk result (λ n. n ≡ length (slice_index_or lines.old.items at [] ++ features.now)) }
    ensures err { OnErr result (lines.new.items ≡ lines.old.items) }
{
    lines[at].extend(features)?;
    Ok(lines[at].len())
}

/// Puts a list at a place, if there is such a place.
fn put_front(fronts: &mut Seq<Front>, place: usize, front: Front)
    ensures { fronts.new ≡ slice_set fronts.old place front }
{
    if place < fronts.len() {
        fronts.set(place, front);
    }
}

/// A list and then these features.
fn followed(
    alloc: Global,
    list: &[FeatureNo],
    features: &[FeatureNo],
) -> Result<FeatureNoList, ListFault>
    ensures { IfOk result (λ s. s ≡ list.now ++ features.now) }
{
    let Ok(items) = Vec::with_capacity(alloc, list.len().saturating_add(features.len())) else {
        return Err(ListFault::NoMemory);
    };
    let mut all = Seq::from_vec(items);
    all.extend(list)?;
    all.extend(features)?;
    Ok(all)
}

/// One line that is not known to begin with another.
fn one_begin(alloc: Global) -> Result<Begins, ListFault>
    ensures { IfOk result (λ s. s ≡ replicate 1 None) }
{
    let mut begins = Seq::new(alloc);
    begins.push(None)?;
    Ok(begins)
}

/// A front of a line that comes after as many others.
fn front_after(start: usize, front: Front) -> Front
    requires { start + front.line < 2 ^ 64 }
    ensures { result ≡ record { line = start + front.line; count = front.count } }
{
    Front {
        line: start + front.line,
        count: front.count,
    }
}

/// Puts what lines begin with last, where these come after as many others.
fn add_begins(begins: &mut Begins, start: usize, others: &[Option<Front>]) -> Result<(), ListFault>
    requires { All (λ b. IfSome b (λ f. start + f.line < 2 ^ 64)) others.now }
    ensures { OnOk result (begins.new ≡ begins.old ++ map (option_map (λ f. record { line = start + f.line; count = f.count })) others.now) }
{
    for begin in others {
        let after = match begin {
            None => None,
            Some(front) => Some(front_after(start, *front)),
        };
        begins.push(after)?;
    }
    Ok(())
}

/// Puts lists last whose lines come after as many others.
fn add_fronts(fronts: &mut Seq<Front>, start: usize, others: &[Front]) -> Result<(), ListFault>
    requires { All (λ f. start + f.line < 2 ^ 64) others.now }
    ensures { OnOk result (fronts.new ≡ fronts.old ++ map (λ f. record { line = start + f.line; count = f.count }) others.now) }
{
    for front in others {
        fronts.push(front_after(start, *front))?;
    }
    Ok(())
}

impl FeatureLists {
    /// No lists. It takes no memory.
    pub fn new(alloc: Global) -> FeatureLists
        ensures { result ≡ record { lines = []; fronts = [] } }
    {
        FeatureLists {
            lines: Vec::new(alloc),
            begins: Seq::new(alloc),
            fronts: Seq::new(alloc),
            room: 0,
        }
    }

    /// As many empty lists, with room for so many features.
    pub fn empty(alloc: Global, count: usize, room: usize) -> Result<FeatureLists, ListFault>
        ensures { IfOk result (λ ls. all_lists ls ≡ replicate count []) }
    {
        Ok(FeatureLists {
            lines: one_line(alloc)?,
            begins: one_begin(alloc)?,
            fronts: empty_fronts(alloc, count)?,
            room,
        })
    }

    /// Takes room for so many features that are looked through, so that this is bounded too. It is
    /// refused where there is less.
    pub fn take(&mut self, count: usize) -> Result<(), ListFault>
        ensures { self.new ≡ self.old }
    {
        take_room(&mut self.room, count)
    }

    /// The lines, in order.
    pub fn lines(&self) -> &[FeatureNoList]
        ensures { result.now ≡ self.now.lines }
    {
        self.lines.as_slice()
    }

    /// The line of a list, and how many of it the list has.
    pub fn front(&self, class: usize) -> Option<Front>
        ensures value { result ≡ slice_get self.now.fronts class }
        ensures within { IfSome result (λ f. IsLineFront self.now.lines f) }
    {
        if class < self.fronts.len() {
            Some(self.fronts.as_slice()[class])
        } else {
            None
        }
    }

    /// The front of a line before this one that this one begins with, where one is known.
    pub fn begin(&self, line: usize) -> Option<Front>
        ensures { IfSome result (λ f. BeginsWith self.now.lines line f) }
    {
        if line < self.begins.len() {
            self.begins.as_slice()[line]
        } else {
            None
        }
    }

    /// The list of a class, empty where there is none.
    pub fn at(&self, class: usize) -> &[FeatureNo]
        ensures { result.now ≡ slice_index_or (all_lists self.now) class [] }
    {
        match self.front(class) {
            None => &[],
            Some(front) => {
                let (list, _) = self.lines[front.line].as_slice().split_at(front.count);
                list
            }
        }
    }

    /// Puts another list at a place, if there is such a place. It begins with this front, where there is one.
    /// A refused call changes no list.
    fn put_begun(
        &mut self,
        class: usize,
        list: FeatureNoList,
        begin: Option<Front>,
    ) -> Result<(), ListFault>
        requires { IfSome begin (λ f. IsLineFront self.old.lines f × HasFront list f (front_of self.old.lines f)) }
        ensures ok { OnOk result (all_lists self.new ≡ slice_set (all_lists self.old) class list) }
        ensures err { OnErr result (all_lists self.new ≡ all_lists self.old) }
    {
        take_room(&mut self.room, list.len())?;
        let front = Front {
            line: self.lines.len(),
            count: list.len(),
        };
        self.begins.push(begin)?;
        if let Err(fault) = push_line(&mut self.lines, list) {
            self.begins.truncate(front.line);
            return Err(fault);
        }
        put_front(&mut self.fronts, class, front);
        Ok(())
    }

    /// Puts another list at a place, if there is such a place. A refused call changes no list.
    pub fn put(&mut self, class: usize, list: FeatureNoList) -> Result<(), ListFault>
        ensures ok { OnOk result (all_lists self.new ≡ slice_set (all_lists self.old) class list) }
        ensures err { OnErr result (all_lists self.new ≡ all_lists self.old) }
    {
        self.put_begun(class, list, None)
    }

    /// Puts a list at a place that is the whole line of this front and then these features. A refused
    /// call changes no list.
    fn put_after(
        &mut self,
        class: usize,
        front: Front,
        features: &[FeatureNo],
    ) -> Result<(), ListFault>
        requires front { IsLineFront self.old.lines front }
        requires whole { front.count ≡ length (slice_index_or self.old.lines front.line []) }
        ensures ok { OnOk result (all_lists self.new ≡ slice_set (all_lists self.old) class (front_of self.old.lines front ++ features.now)) }
        ensures err { OnErr result (all_lists self.new ≡ all_lists self.old) }
    {
        let count = extend_line(&mut self.lines, front.line, features)?;
        let longer = Front {
            line: front.line,
            count,
        };
        put_front(&mut self.fronts, class, longer);
        Ok(())
    }

    /// Puts the list of another class and then these features at a place, if there is such a place. A
    /// refused call changes no list.
    pub fn go_on(
        &mut self,
        alloc: Global,
        class: usize,
        superclass: usize,
        own: &[FeatureNo],
    ) -> Result<(), ListFault>
        ensures ok { OnOk result (all_lists self.new ≡ slice_set (all_lists self.old) class (slice_index_or (all_lists self.old) superclass [] ++ own.now)) }
        ensures err { OnErr result (all_lists self.new ≡ all_lists self.old) }
    {
        if let Some(front) = self.front(superclass) {
            if own.is_empty() {
                put_front(&mut self.fronts, class, front);
                return Ok(());
            }
            if front.count == self.lines[front.line].len() {
                return self.put_after(class, front, own);
            }
        }
        let list = followed(alloc, self.at(superclass), own)?;
        let begin = self.front(superclass);
        self.put_begun(class, list, begin)
    }

    /// These lists, and then the others with these lines in place of theirs, in which each feature stands for one of the other's.
    pub fn joined(
        &self,
        alloc: Global,
        others: &FeatureLists,
        lines: Vec<FeatureNoList>,
    ) -> Result<FeatureLists, ListFault>
        requires { AreMapped others.now.lines lines.items }
        ensures { IfOk result (λ ls. all_lists ls ≡ all_lists self.now ++ all_lists (record { lines = lines.items; fronts = others.now.fronts })) }
    {
        let start = self.lines.len();
        let all = joined(alloc, self.lines.as_slice(), lines)?;
        let _total = all.len();
        let mut begins = Seq::from_slice(alloc, self.begins.as_slice())?;
        add_begins(&mut begins, start, others.begins.as_slice())?;
        let mut fronts = Seq::from_slice(alloc, self.fronts.as_slice())?;
        add_fronts(&mut fronts, start, others.fronts.as_slice())?;
        Ok(FeatureLists {
            lines: all,
            begins,
            fronts,
            room: self.room,
        })
    }
}

impl Copied for FeatureLists {
    fn copy(&self, alloc: Global) -> Result<FeatureLists, ListFault> {
        Ok(FeatureLists {
            lines: copies(alloc, self.lines.as_slice())?,
            begins: Seq::from_slice(alloc, self.begins.as_slice())?,
            fronts: Seq::from_slice(alloc, self.fronts.as_slice())?,
            room: self.room,
        })
    }
}
