//! The search for a way from a number back to itself.

ghost use Rattle.std.specs.Prelude.{◌≡◌, ◌<◌, length, IfOk, OnOk};
ghost use Rattle.qvt_cycle.specs.Successors.{is_on_cycle};
ghost use Rattle.qvt_cycle.specs.Search.{SearchState, visit, visit_all, unmarked, is_visited};

use crate::lists::Positions;
use qvt_base::list_fault::ListFault;
use qvt_base::seq::Seq;
use std::alloc::Global;
use std::marker::Model;

/// The objects that were found, marked by their positions, and those whose lists are still to be
/// looked through.
#[derive(Drop)]
struct Search {
    marks: Vec<bool>,
    pending: Positions,
}

impl Model for Search {
    ghost use Rattle.qvt_cycle.specs.Search.{SearchState};

    ghost Value = { SearchState };

    ghost view = { λ s. record { marks = s.marks.items; pending = s.pending } };
}

impl Search {
    /// Nothing found yet, and this object to be looked through.
    fn new(alloc: Global, lists: &[Positions], start: u32) -> Result<Search, ListFault>
        ensures { IfOk result (λ s. s ≡ record { marks = unmarked lists.now; pending = start ∷ [] }) }
    {
        let marks = no_marks(alloc, lists)?;
        let mut pending = Seq::new(alloc);
        pending.push(start)?;
        Ok(Search { marks, pending })
    }

    ghost use Rattle.std.specs.Prelude.{[], ◌∷◌, ◌++◌, slice_index_or, MatchOption};

    /// Whether the object was found; a position past the end counts as found.
    fn is_marked(&self, object: u32) -> bool
        ensures { result ≡ is_visited self.now.marks object }
    {
        let at = object as usize;
        if at < self.marks.len() {
            self.marks[at]
        } else {
            true
        }
    }

    /// Finds an object.
    fn visit(&mut self, object: u32) -> Result<(), ListFault>
        ensures { OnOk result (self.new ≡ visit self.old object) }
    {
        if !self.is_marked(object) {
            self.pending.push(object)?;
            self.marks[object as usize] = true;
        }
        Ok(())
    }

    /// Finds each of the objects.
    fn visit_all(&mut self, objects: &[u32]) -> Result<(), ListFault>
        ensures { OnOk result (self.new ≡ visit_all self.old objects.now) }
    {
        for object in objects {
            self.visit(*object)?;
        }
        Ok(())
    }

    /// Takes the last off that waits.
    fn next(&mut self) -> Option<u32>
        ensures marks { self.new.marks ≡ self.old.marks }
        ensures next { MatchOption result ((self.old.pending ≡ []) × (self.new.pending ≡ [])) (λ x. self.old.pending ≡ self.new.pending ++ x ∷ []) }
    {
        self.pending.pop()
    }

    /// Finds all that the number leads to.
    fn look_through(&mut self, lists: &[Positions], object: u32) -> Result<(), ListFault>
        ensures { OnOk result (self.new ≡ visit_all self.old (slice_index_or lists.now object [])) }
    {
        match lists.get(object as usize) {
            Some(others) => self.visit_all(others.as_slice()),
            None => Ok(()),
        }
    }
}

fn no_marks(alloc: Global, lists: &[Positions]) -> Result<Vec<bool>, ListFault>
    ensures { IfOk result (λ marks. marks.items ≡ unmarked lists.now) }
{
    let mut marks = Seq::new(alloc);
    for _object in lists {
        marks.push(false)?;
    }
    Ok(marks.into_vec())
}

/// Whether the number leads back to itself, by a search through all that it leads to.
#[tactic(auto, using(crate::proofs::Searched::begun, crate::proofs::Searched::goes_on, crate::proofs::Searched::fewer_left, crate::proofs::Searched::tells_at))]
pub fn leads_back(alloc: Global, lists: &[Positions], start: u32) -> Result<bool, ListFault>
    requires { start < length lists.now }
    ensures { IfOk result (λ b. b ≡ is_on_cycle lists.now start) }
{
    let mut search = Search::new(alloc, lists, start)?;
    while let Some(object) = search.next() {
        search.look_through(lists, object)?;
    }
    Ok(search.is_marked(start))
}
