//! The laws of the late entries of a run. Each function does nothing: its contract is the law.

ghost use Rattle.qvt_run_laws.specs.Entries.{AnswersFit, EntriesFit, RequestsFit};

/// What late assignments keep fits its slots, in whatever state `main` ends.
pub fn requests_fit()
    ensures { RequestsFit }
{}

/// What answers a late assignment that fits can be assigned to its slot.
pub fn answers_fit()
    ensures { AnswersFit }
{}

/// Each entry of a run that has ended well can be written.
pub fn entries_fit()
    ensures { EntriesFit }
{}
