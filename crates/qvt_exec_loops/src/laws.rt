//! The laws of iterators as machines. Each function does nothing: its contract is the law.

ghost use Rattle.qvt_exec_loops.specs.Laws.{IteratorsGoByTurns, EachItemIsATurn};

/// What an iterator does with an item and those behind it: it evaluates its body for the item, and takes
/// the value.
pub fn each_item_is_a_turn()
    ensures { EachItemIsATurn }
{}

/// Each iterator of the rules but `closure` and `iterate` goes over the items of its source by the turns
/// that it begins with.
pub fn iterators_are_their_turns()
    ensures { IteratorsGoByTurns }
{}
