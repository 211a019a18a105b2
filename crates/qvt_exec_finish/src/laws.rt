//! What written entries leave. The function does nothing: its contract is the law.

ghost use Rattle.qvt_exec_finish.specs.Stay.{CandidatesStay};

/// Each request has the candidates over the store with the entries written that it had before.
pub fn candidates_stay()
    ensures { CandidatesStay }
{}
