//! The laws of the closure as a machine. Each function does nothing: its contract is the law.

ghost use Rattle.qvt_exec_visits.specs.Laws.{ClosureIsItsVisits, EachItemIsAVisit, NoItemIsTheEnd};

/// The rule of the closure goes by visits, from the items of its source.
pub fn closure_is_its_visits()
    ensures { ClosureIsItsVisits }
{}

/// Before an item that was not visited it evaluates its body for the item, and takes the value.
pub fn each_item_is_a_visit()
    ensures { EachItemIsAVisit }
{}

/// Where no such item is left it gives the collection of those that were visited.
pub fn no_item_is_the_end()
    ensures { NoItemIsTheEnd }
{}
