//! What late assignments leave in the slots of features without an opposite that are no containments. Each function does
//! nothing: its contract is the law.

ghost use Rattle.qvt_meaning.specs.Laws.{LastPut, PerSlot};
ghost use Rattle.qvt_late_laws.specs.Late.{RunsLastPut, RunsPerSlot};

/// Such a slot has the list that the entries for it alone leave, in their order.
pub fn per_slot()
    ensures { PerSlot }
{}

/// Where the last of them replaces the list, it has the values of that one.
pub fn last_put()
    ensures { LastPut }
{}

/// So has it after a run that has ended well, over the store that the last statement left.
pub fn runs_per_slot()
    ensures { RunsPerSlot }
{}

/// Where the last of them replaces the list, it has exactly the objects that answer this one over the finished trace and
/// the store that the last statement left.
pub fn runs_last_put()
    ensures { RunsLastPut }
{}
