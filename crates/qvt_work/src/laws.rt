//! The laws of runs that are done. Each function does nothing: its contract is the law.

ghost use Rattle.qvt_work.specs.Fuel.{MeaningIsExact};
ghost use Rattle.qvt_work.specs.Laws.{RunsAreExact, RunsAreRecorded, RunsConform};

/// A program that is done is done with every fuel that its cost is not above, and out of fuel with every other.
pub fn meaning_is_exact()
    ensures { MeaningIsExact }
{}

/// Where the models of a job's run conform, those are written that conform.
pub fn runs_conform()
    ensures { RunsConform }
{}

/// The trace of a run that is done has at most one record for each mapping, context and argument list, and exactly one
/// for each whose call came to the step that writes its record, or whose init section returned with a result.
pub fn runs_are_recorded()
    ensures { RunsAreRecorded }
{}

/// The cost of a run that is done is exact: with n in place of the job's fuel the run has the same files and the same
/// line, or is out of fuel where n is less than the cost.
pub fn runs_are_exact()
    ensures { RunsAreExact }
{}
