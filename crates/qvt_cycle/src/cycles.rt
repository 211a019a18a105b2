//! Which numbers lead back to themselves.

ghost use Rattle.std.specs.Prelude.{◌≡◌, ◌<◌, ◌==◌, false, length, IfOk, IsTrue};
ghost use Rattle.qvt_cycle.specs.Successors.{among, is_on_cycle, leads};
ghost use Rattle.qvt_cycle.specs.Search.{component_of, are_below, fall, is_alone};

use crate::classes::classes;
use crate::counts::{count_all, zeros};
use crate::lists::Positions;
use crate::search::leads_back;
use qvt_base::list_fault::ListFault;
use std::alloc::Global;

/// What shows of numbers that they do not lead back to themselves: a class for each, which never rises along a step, and
/// how often each class stands.
#[derive(Drop)]
pub struct Cycles {
    classes: Vec<u32>,
    uses: Vec<u32>,
}

fn component_of(classes: &[u32], number: u32) -> u32
    ensures { result ≡ component_of classes.now number }
{
    let at = number as usize;
    if at < classes.len() { classes[at] } else { 0 }
}

fn are_below(classes: &[u32], class: u32, list: &[u32]) -> bool
    ensures { result ≡ are_below classes.now class list.now }
{
    for number in list {
        if component_of(classes, *number) > class {
            return false;
        }
    }
    true
}

/// Whether the class never rises along a step.
fn fall(classes: &[u32], lists: &[Positions]) -> bool
    ensures { result ≡ fall classes.now lists.now }
{
    for (i, list) in lists.iter().enumerate() {
        if i >= classes.len() || !are_below(classes, classes[i], list.as_slice()) {
            return false;
        }
    }
    true
}

/// Classes that never rise along a step.
fn falling_classes(alloc: Global, lists: &[Positions]) -> Result<Vec<u32>, ListFault>
    ensures { IfOk result (λ classes. IsTrue (fall classes.items lists.now)) }
{
    let found = classes(alloc, lists)?;
    if fall(found.as_slice(), lists) {
        return Ok(found);
    }
    let none = zeros(alloc, lists)?;
    Ok(none)
}

/// Whether the number stands in the list.
fn holds(list: &[u32], number: u32) -> bool
    ensures { result ≡ among list.now number }
{
    list.iter().any(|other| *other == number)
}

/// Whether the number leads to itself in one step.
fn leads_to_itself(lists: &[Positions], number: u32) -> bool
    ensures { result ≡ leads lists.now number number }
{
    match lists.get(number as usize) {
        Some(list) => holds(list.as_slice(), number),
        None => false,
    }
}

impl Cycles {
    ghost use Rattle.qvt_cycle.specs.Ready.{AreCyclesOf};

    /// Looks through a relation, in time linear in its lists.
    pub fn new(alloc: Global, lists: &[Positions]) -> Result<Cycles, ListFault>
        ensures { IfOk result (AreCyclesOf lists.now) }
    {
        let classes = falling_classes(alloc, lists)?;
        let mut uses = zeros(alloc, lists)?;
        count_all(&mut uses, classes.as_slice());
        Ok(Cycles { classes, uses })
    }

    /// Whether the number alone is of its class.
    fn is_alone(&self, number: u32) -> bool
        ensures { result ≡ is_alone self.now.classes.items self.now.uses.items number }
    {
        let class = component_of(self.classes.as_slice(), number) as usize;
        class < self.uses.len() && self.uses[class] == 1
    }

    /// Whether the number leads back to itself. A search is made only where the classes leave that open.
    pub fn is_on_cycle(
        &self,
        alloc: Global,
        lists: &[Positions],
        number: u32,
    ) -> Result<bool, ListFault>
        requires ready { AreCyclesOf lists.now self.now }
        requires there { number < length lists.now }
        ensures { IfOk result (λ b. b ≡ is_on_cycle lists.now number) }
    {
        if self.is_alone(number) && !leads_to_itself(lists, number) {
            return Ok(false);
        }
        leads_back(alloc, lists, number)
    }
}
