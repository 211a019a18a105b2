ghost use Rattle.std.specs.Prelude.{◌≡◌, ◌<◌, ◌≤◌, ◌||◌, ◌∷◌, ◌++◌, [], length, map, position, slice_index_or, take, IfOk, OnOk};
ghost use Rattle.qvt_metamodel.specs.Lists.{front_of, IsLineFront};
ghost use Rattle.qvt_meta_names.specs.Named.{number_at};
ghost use Rattle.qvt_meta_tables.specs.NumberSets.{has_number};
ghost use Rattle.qvt_meta_repeats.specs.Flags.{number_flags, NamesAre};

use qvt_base::list_fault::ListFault;
use qvt_base::numbers::FeatureNo;
use qvt_base::seq::Seq;
use qvt_meta_tables::number_set::MarkedNumbers;
use qvt_metamodel::front::Front;
use qvt_metamodel::lists::FeatureLists;
use std::alloc::Global;
use std::marker::Model;

/// For each feature of a line whether an earlier one has its name, and the first of which this is so.
#[derive(Drop)]
pub struct LineFlags {
    flags: Seq<bool>,
    first: Option<usize>,
}

impl Model for LineFlags {
    ghost use Rattle.std.specs.Prelude.{◌≡◌, List, Bool, position};

    ghost Value = { List Bool };

    ghost view = { λ l. l.flags };

    ghost invariant = { λ l. l.first ≡ position (λ b. b) l.flags };
}

impl LineFlags {
    /// No flags, in memory for so many.
    fn none(alloc: Global, room: usize) -> Result<LineFlags, ListFault>
        ensures { IfOk result (λ l. l ≡ []) }
    {
        let flags = Seq::with_room(alloc, room)?;
        Ok(LineFlags { flags, first: None })
    }

    /// The first so many of the flags, in memory for more.
    fn begun(&self, alloc: Global, count: usize, room: usize) -> Result<LineFlags, ListFault>
        requires { count ≤ length self.now }
        ensures { IfOk result (λ l. l ≡ take count self.now) }
    {
        let mut flags = Seq::with_room(alloc, room)?;
        let (front, _) = self.flags().split_at(count);
        flags.extend(front)?;
        let first = self.first_below(count);
        Ok(LineFlags { flags, first })
    }

    /// Puts a flag last.
    fn push(&mut self, flag: bool) -> Result<(), ListFault>
        ensures { OnOk result (self.new ≡ self.old ++ flag ∷ []) }
    {
        let place = self.flags.len();
        self.flags.push(flag)?;
        if flag && self.first.is_none() {
            self.first = Some(place);
        }
        Ok(())
    }

    /// The flags, in the order of the line.
    pub fn flags(&self) -> &[bool]
        ensures { result.now ≡ self.now }
    {
        self.flags.as_slice()
    }

    /// The first place with a flag among the first so many.
    pub fn first_below(&self, count: usize) -> Option<usize>
        ensures { result ≡ position (λ b. b) (take count self.now) }
    {
        let Some(place) = self.first else {
            return None;
        };
        if place < count { Some(place) } else { None }
    }
}

/// The number of the name of a feature.
fn number_at(numbers: &[u32], feature: FeatureNo) -> u32
    ensures { result ≡ number_at numbers.now feature }
{
    let at = feature.0 as usize;
    if at < numbers.len() { numbers[at] } else { 0 }
}

/// The names of the features of a front, by their numbers.
#[derive(Drop)]
struct FrontNames {
    front: Front,
    names: MarkedNumbers,
}

impl FrontNames {
    /// Those of no features. It takes no memory.
    fn none(alloc: Global) -> FrontNames
        ensures { (numbers : List ℕ) (lines : List (List FeatureNo)) → NamesAre numbers (front_of lines result.front) result.names }
    {
        FrontNames {
            front: Front { line: 0, count: 0 },
            names: MarkedNumbers::new(alloc),
        }
    }

    /// Leaves the names only where they are of the first features of this front.
    fn leave_first(&mut self, front: Front)
        ensures line { self.new.front.line ≡ front.line }
        ensures count { self.new.front.count ≤ front.count }
        ensures names { (numbers : List ℕ) (lines : List (List FeatureNo)) → NamesAre numbers (front_of lines self.old.front) self.old.names → NamesAre numbers (front_of lines self.new.front) self.new.names }
    {
        if self.front.line != front.line || self.front.count > front.count {
            self.names.clear();
            self.front = Front {
                line: front.line,
                count: 0,
            };
        }
    }

    /// Has the names of this front in the place of those of the one before. It goes only over what is
    /// more of the same line.
    fn hold(&mut self, numbers: &[u32], lists: &FeatureLists, front: Front) -> Result<(), ListFault>
        requires front { IsLineFront lists.now.lines front }
        requires names { NamesAre numbers.now (front_of lists.now.lines self.old.front) self.old.names }
        ensures front { OnOk result (self.new.front ≡ front) }
        ensures names { OnOk result (NamesAre numbers.now (front_of lists.now.lines front) self.new.names) }
    {
        self.leave_first(front);
        let line = lists.lines()[front.line].as_slice();
        for place in self.front.count..front.count {
            self.names.put(number_at(numbers, line[place]))?;
        }
        self.front = front;
        Ok(())
    }
}

ghost use Rattle.std.specs.Prelude.{ℕ, List};
ghost use Rattle.qvt_base.specs.declared.numbers.FeatureNo.{FeatureNo};

/// Whether one of the sets has the number.
fn either_has(known: &MarkedNumbers, seen: &MarkedNumbers, number: u32) -> bool
    ensures { result ≡ (has_number known.now number || has_number seen.now number) }
{
    known.has(number) || seen.has(number)
}

/// Puts the flags last that a line has more, where the first so many are there and the names of their
/// features are known, whatever the other set held before.
fn add_flags(
    numbers: &[u32],
    known: &MarkedNumbers,
    seen: &mut MarkedNumbers,
    line: &[FeatureNo],
    count: usize,
    flags: &mut LineFlags,
) -> Result<(), ListFault>
    requires count { count ≤ length line.now }
    requires known { NamesAre numbers.now (take count line.now) known.now }
    requires flags { flags.old ≡ take count (number_flags numbers.now line.now) }
    ensures { OnOk result (flags.new ≡ number_flags numbers.now line.now) }
{
    seen.clear();
    for place in count..line.len() {
        let number = number_at(numbers, line[place]);
        flags.push(either_has(known, seen, number))?;
        seen.put(number)?;
    }
    Ok(())
}

/// The flags of the line at a place, by those of the lines before it. Of what it begins with they are not
/// found again, and its names are not read again where they are held.
fn flags_of(
    alloc: Global,
    numbers: &[u32],
    lists: &FeatureLists,
    held: &mut FrontNames,
    seen: &mut MarkedNumbers,
    all: &[LineFlags],
    at: usize,
) -> Result<LineFlags, ListFault>
    requires at { at < length lists.now.lines }
    requires all { all.now ≡ map (number_flags numbers.now) (take at lists.now.lines) }
    requires held { NamesAre numbers.now (front_of lists.now.lines held.old.front) held.old.names }
    ensures flags { IfOk result (λ l. l ≡ number_flags numbers.now (slice_index_or lists.now.lines at [])) }
    ensures held { OnOk result (NamesAre numbers.now (front_of lists.now.lines held.new.front) held.new.names) }
{
    let line = lists.lines()[at].as_slice();
    let Some(front) = lists.begin(at) else {
        let none = MarkedNumbers::new(alloc);
        let mut flags = LineFlags::none(alloc, line.len())?;
        add_flags(numbers, &none, seen, line, 0, &mut flags)?;
        return Ok(flags);
    };
    held.hold(numbers, lists, front)?;
    let mut flags = all[front.line].begun(alloc, front.count, line.len())?;
    add_flags(numbers, &held.names, seen, line, front.count, &mut flags)?;
    Ok(flags)
}

/// Those of each line.
pub fn all_line_flags(
    alloc: Global,
    numbers: &[u32],
    lists: &FeatureLists,
) -> Result<Vec<LineFlags>, ListFault>
    ensures { IfOk result (λ v. v.items ≡ map (number_flags numbers.now) lists.now.lines) }
{
    let mut held = FrontNames::none(alloc);
    let mut seen = MarkedNumbers::new(alloc);
    let mut all = Seq::new(alloc);
    for at in 0..lists.lines().len() {
        let before = all.as_slice();
        let flags = flags_of(alloc, numbers, lists, &mut held, &mut seen, before, at)?;
        all.push(flags)?;
    }
    Ok(all.into_vec())
}
