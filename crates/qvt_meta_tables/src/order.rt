//! An order of classes in which each comes after its superclasses.

ghost use Rattle.std.specs.Prelude.{replicate, ◌≡◌, ◌≤◌, ◌<◌, ◌+◌, ◌++◌, ◌∷◌, [], ℕ, map, length, IfOk, OnOk, IsTrue, slice_index, false};
ghost use Rattle.qvt_meta_tables.specs.Search.{flag, work, stands_in, place_of, AreLive, IsAcyclic, IsSearch};
ghost use Rattle.qvt_meta_tables.specs.Tables.{of_classes, IsOrder};
ghost use Rattle.qvt_meta_tables.specs.declared.visit.Visit.TheVariants.{Enter, Leave};

use crate::tables::supers_at;
use crate::visit::Visit;
use qvt_base::list_fault::ListFault;
use qvt_base::numbers::ClassNo;
use qvt_base::seq::Seq;
use qvt_metamodel::info::ClassInfo;
use std::alloc::Global;

/// Classes by number, each after its superclasses, and for each class its place there.
#[derive(Drop)]
pub struct Order {
    pub classes: Seq<u32>,
    pub ranks: Seq<u32>,
}

/// The search for an order: which classes it has met, what it has placed, and what it has to do.
#[derive(Drop)]
pub struct Search {
    pub met: Seq<bool>,
    pub placed: Seq<u32>,
    pub visits: Seq<Visit>,
}

/// As many flags, all down.
fn flags(alloc: Global, count: usize) -> Result<Seq<bool>, ListFault>
    ensures { IfOk result (λ s. s ≡ replicate count false) }
{
    let mut flags = Seq::with_room(alloc, count)?;
    for at in 0..count {
        flags.push(false)?;
    }
    Ok(flags)
}

/// Has each of these classes entered.
fn enter_all(visits: &mut Seq<Visit>, classes: &[ClassNo]) -> Result<(), ListFault>
    ensures { OnOk result (visits.new ≡ visits.old ++ map (λ c. Enter c.0) classes.now) }
{
    for class in classes {
        visits.push(Visit::Enter(class.0))?;
    }
    Ok(())
}

/// Enters a class: where it is met for the first time, its superclasses are to be entered, and then
/// it is to be left.
fn enter(classes: &[ClassInfo], search: &mut Search, class: u32) -> Result<(), ListFault>
    requires live { AreLive classes.now }
    requires acyclic { IsAcyclic classes.now }
    requires search { IsSearch classes.now search.old.met search.old.placed (search.old.visits ++ Enter class ∷ []) }
    ensures search { OnOk result (IsSearch classes.now search.new.met search.new.placed search.new.visits) }
    ensures met { OnOk result (IsTrue (flag search.new.met class)) }
    ensures stay { OnOk result ((c : ℕ) → IsTrue (flag search.old.met c) → IsTrue (flag search.new.met c)) }
    ensures fewer { OnOk result (work search.new.met classes.now + length search.new.visits ≤ work search.old.met classes.now + length search.old.visits) }
{
    let at = class as usize;
    if search.met.as_slice()[at] {
        return Ok(());
    }
    search.met.set(at, true);
    search.visits.push(Visit::Leave(class))?;
    enter_all(&mut search.visits, supers_at(classes, class))?;
    Ok(())
}

/// One visit.
fn step(classes: &[ClassInfo], search: &mut Search, visit: Visit) -> Result<(), ListFault>
    requires live { AreLive classes.now }
    requires acyclic { IsAcyclic classes.now }
    requires search { IsSearch classes.now search.old.met search.old.placed (search.old.visits ++ visit ∷ []) }
    ensures search { OnOk result (IsSearch classes.now search.new.met search.new.placed search.new.visits) }
    ensures stay { OnOk result ((c : ℕ) → IsTrue (flag search.old.met c) → IsTrue (flag search.new.met c)) }
    ensures fewer { OnOk result (work search.new.met classes.now + length search.new.visits ≤ work search.old.met classes.now + length search.old.visits) }
{
    match visit {
        Visit::Enter(class) => enter(classes, search, class)?,
        Visit::Leave(class) => search.placed.push(class)?,
    }
    Ok(())
}

/// Makes all visits.
fn go_on(classes: &[ClassInfo], search: &mut Search) -> Result<(), ListFault>
    requires live { AreLive classes.now }
    requires acyclic { IsAcyclic classes.now }
    requires search { IsSearch classes.now search.old.met search.old.placed search.old.visits }
    ensures search { OnOk result (IsSearch classes.now search.new.met search.new.placed search.new.visits) }
    ensures done { OnOk result (search.new.visits ≡ []) }
    ensures stay { OnOk result ((c : ℕ) → IsTrue (flag search.old.met c) → IsTrue (flag search.new.met c)) }
{
    while let Some(visit) = search.visits.pop() {
        step(classes, search, visit)?;
    }
    Ok(())
}

/// The classes, each after its superclasses.
fn placed(alloc: Global, classes: &[ClassInfo], count: u32) -> Result<Seq<u32>, ListFault>
    requires live { AreLive classes.now }
    requires acyclic { IsAcyclic classes.now }
    requires count { length classes.now ≡ count }
    ensures all { IfOk result (λ order. length order ≡ count) }
    ensures each { IfOk result (λ order. (c : ℕ) → c < count → IsTrue (stands_in c order)) }
    ensures closed { IfOk result (λ order. IsClosed classes.now order) }
{
    let mut search = Search {
        met: flags(alloc, classes.len())?,
        placed: Seq::with_room(alloc, classes.len())?,
        visits: Seq::new(alloc),
    };
    for class in 0..count {
        enter(classes, &mut search, class)?;
        go_on(classes, &mut search)?;
    }
    let Search { placed, .. } = search;
    Ok(placed)
}

ghost use Rattle.qvt_meta_tables.specs.Search.{IsClosed};

/// As many ranks, all 0.
fn no_ranks(alloc: Global, count: usize) -> Result<Seq<u32>, ListFault>
    ensures { IfOk result (λ s. s ≡ replicate count 0) }
{
    let mut ranks = Seq::with_room(alloc, count)?;
    for at in 0..count {
        ranks.push(0)?;
    }
    Ok(ranks)
}

/// The first place of each of as many classes in an order that has no others.
fn ranks_of(alloc: Global, order: &[u32], count: u32) -> Result<Seq<u32>, ListFault>
    requires { length order.now ≡ count }
    ensures each { IfOk result (λ ranks. length ranks ≡ count) }
    ensures places { IfOk result (λ ranks. (c : ℕ) → c < count → IsTrue (stands_in c order.now) → slice_index ranks c ≡ place_of c order.now) }
{
    let mut ranks = no_ranks(alloc, order.len())?;
    for place in (0..count).rev() {
        let at = order[place as usize] as usize;
        if at < ranks.len() {
            ranks.set(at, place);
        }
    }
    Ok(ranks)
}

/// An order of these classes, of which none is above itself.
pub fn order_of(alloc: Global, classes: &[ClassInfo], count: u32) -> Result<Order, ListFault>
    requires live { AreLive classes.now }
    requires acyclic { IsAcyclic classes.now }
    requires count { length classes.now ≡ count }
    ensures { IfOk result (λ order. IsOrder (of_classes classes.now) order.classes order.ranks) }
{
    let placed = placed(alloc, classes, count)?;
    let ranks = ranks_of(alloc, placed.as_slice(), count)?;
    Ok(Order {
        classes: placed,
        ranks,
    })
}
