//! The mappings that a mapping disjuncts to, through any depth (QVT 1.3, 8.2.1.15).

ghost use Rattle.std.specs.Prelude.{◌≡◌, ◌∷◌, ◌++◌, [], fold, IfOk, OnOk, MatchOption};
ghost use Rattle.std.specs.List.{list_all};
ghost use Rattle.qvt_exec_types.specs.Program.{program_view};
ghost use Rattle.qvt_meaning.specs.Program as meaning;
ghost use Rattle.qvt_exec_resolves.specs.Numbers.{has};
ghost use Rattle.qvt_exec_resolves.specs.Disjuncts.{closed, from, next_of, opened, taken, waiting};

use crate::number_set::NumberSet;
use crate::units::disjuncts;
use qvt_base::list_fault::ListFault;
use qvt_base::lists::MappingList;
use qvt_base::numbers::MappingNo;
use qvt_base::seq::Seq;
use qvt_exec_types::program::Program;
use std::alloc::Global;

/// What the search does next.
#[derive(Clone, Copy)]
enum Turn {
    /// It lists the mapping, and then those that it disjuncts to, through fewer than so many mappings.
    Open(u32, usize),
    /// The mapping was listed, and those that it disjuncts to had their turns.
    Close(u32),
}

/// A search in depth: the mappings that are listed; those of them that are listed with all that they
/// disjunct to; and what is to be done, the last first.
struct Search {
    listed: NumberSet,
    done: NumberSet,
    turns: Seq<Turn>,
}

impl Drop for Search {
    fn drop(self) {
        let Search {
            listed,
            done,
            turns,
        } = self;
    }
}

/// The turns of these mappings, the first of which is taken first, so that it stands last.
fn waiting(alloc: Global, depth: usize, mappings: &[u32]) -> Result<Seq<Turn>, ListFault>
    ensures { IfOk result (λ turns. turns ≡ waiting depth mappings.now) }
{
    let mut turns = Seq::new(alloc);
    for mapping in mappings {
        turns.push(Turn::Open(*mapping, depth))?;
    }
    let mut turns = turns.into_vec();
    turns.reverse();
    Ok(Seq::from_vec(turns))
}

fn are_all_in(set: &NumberSet, numbers: &[u32]) -> bool
    ensures { result ≡ list_all (has set.now) numbers.now }
{
    numbers.iter().all(|number| set.has(*number))
}

impl Search {
    fn new(alloc: Global, mapping: u32, depth: usize) -> Result<Search, ListFault>
        ensures { IfOk result (λ s. s ≡ record { listed = []; done = []; turns = Turn.Open mapping depth ∷ [] }) }
    {
        let mut turns = Seq::new(alloc);
        turns.push(Turn::Open(mapping, depth))?;
        Ok(Search {
            listed: NumberSet::new(alloc),
            done: NumberSet::new(alloc),
            turns,
        })
    }

    /// Lists a mapping, and lets those wait that it disjuncts to, unless all of them are listed.
    fn open(
        &mut self,
        alloc: Global,
        program: &Program,
        mapping: u32,
        depth: usize,
    ) -> Result<(), ListFault>
        ensures { OnOk result (self.new ≡ opened (next_of (program_view program.now)) self.old mapping depth) }
    {
        if depth == 0 || self.done.has(mapping) {
            return Ok(());
        }
        let others = disjuncts(alloc, program, mapping)?;
        let turns = waiting(alloc, depth - 1, others.as_slice())?;
        self.listed.add(mapping)?;
        self.turns.push(Turn::Close(mapping))?;
        self.turns.extend(turns.as_slice())
    }

    /// Notes that a mapping is listed with all that it disjuncts to, if those are noted.
    fn close(&mut self, alloc: Global, program: &Program, mapping: u32) -> Result<(), ListFault>
        ensures { OnOk result (self.new ≡ closed (next_of (program_view program.now)) self.old mapping) }
    {
        let others = disjuncts(alloc, program, mapping)?;
        if self.listed.has(mapping) && are_all_in(&self.done, others.as_slice()) {
            return self.done.add(mapping);
        }
        Ok(())
    }

    fn take(&mut self, alloc: Global, program: &Program, turn: Turn) -> Result<(), ListFault>
        ensures { OnOk result (self.new ≡ taken (next_of (program_view program.now)) self.old turn) }
    {
        match turn {
            Turn::Open(mapping, depth) => self.open(alloc, program, mapping, depth),
            Turn::Close(mapping) => self.close(alloc, program, mapping),
        }
    }

    fn into_listed(self) -> NumberSet
        ensures { result ≡ self.listed }
    {
        let Search {
            listed,
            done,
            turns,
        } = self;
        listed
    }

    fn next(&mut self) -> Option<Turn>
        ensures listed { self.new.listed ≡ self.old.listed }
        ensures done { self.new.done ≡ self.old.done }
        ensures turn { MatchOption result ((self.old.turns ≡ []) × (self.new.turns ≡ [])) (λ last. self.old.turns ≡ self.new.turns ++ last ∷ []) }
    {
        self.turns.pop()
    }
}

/// The mapping first, and then those that it disjuncts to, through fewer than so many mappings, each
/// once. The lists of each are looked through once, where none leads back to itself.
fn listed_from(
    alloc: Global,
    program: &Program,
    mapping: u32,
    depth: usize,
) -> Result<NumberSet, ListFault>
    ensures { IfOk result (λ set. set ≡ fold meaning.with_number [] (from (next_of (program_view program.now)) depth mapping)) }
{
    let mut search = Search::new(alloc, mapping, depth)?;
    while let Some(turn) = search.next() {
        search.take(alloc, program, turn)?;
    }
    Ok(search.into_listed())
}

/// The mapping first, and then those that it disjuncts to, through any depth, each once.
fn listed_with(alloc: Global, program: &Program, mapping: u32) -> Result<NumberSet, ListFault>
    ensures { IfOk result (λ set. set ≡ meaning.listed_with (program_view program.now) mapping) }
{
    let depth = program.module.units.len();
    let listed = listed_from(alloc, program, mapping, depth)?;
    Ok(listed)
}

/// The mappings of these numbers.
fn as_mappings(alloc: Global, numbers: &[u32]) -> Result<MappingList, ListFault>
    ensures { IfOk result (λ mappings. mappings ≡ meaning.as_mappings numbers.now) }
{
    let mut mappings = Seq::new(alloc);
    for number in numbers {
        mappings.push(MappingNo(*number))?;
    }
    Ok(mappings)
}

/// The mappings whose records alone a resolve looks at that names this mapping, if it names one.
pub fn all_within(
    alloc: Global,
    program: &Program,
    named: Option<u32>,
) -> Result<Option<MappingList>, ListFault>
    ensures { IfOk result (λ within. within ≡ meaning.all_within (program_view program.now) named) }
{
    match named {
        None => Ok(None),
        Some(mapping) => {
            let listed = listed_with(alloc, program, mapping)?;
            Ok(Some(as_mappings(alloc, listed.as_slice())?))
        }
    }
}
