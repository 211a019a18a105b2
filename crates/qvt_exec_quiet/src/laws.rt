//! What quiet phrases leave, and what is done where the source of a step is lent. The functions do nothing: their contracts are the
//! laws.

ghost use Rattle.qvt_run_data.specs.declared.late.LateWrite.{LateWrite};
ghost use Rattle.qvt_exec_quiet.specs.Leaves.{QuietLeave};
ghost use Rattle.qvt_exec_quiet.specs.Lent.{LentFirst};

/// Expressions of literals, names, signs, operators, properties and operations leave all of the state but its cost.
#[tactic(auto, using(crate::proofs::Leaving::quiet_leave))]
pub fn quiet_leave()
    ensures { QuietLeave LateWrite }
{}

/// An expression with steps does what it does with the source of its first step lent.
#[tactic(auto, using(crate::proofs::Lending::lends_first))]
pub fn lends_first()
    ensures { LentFirst LateWrite }
{}
