//! The laws of runs. Each function does nothing: its contract is the law.

ghost use Rattle.qvt_meaning.specs.Laws.{CallsIndependent, ExpressionsIndependent, Independent, OnePass, OnlyFinish, SecondRun, StatementsIndependent};

/// The finish changes nothing of a run but the answers of the entries.
pub fn runs_are_independent()
    ensures { Independent }
{}

/// The same of a call, while so many more may be open.
pub fn calls_are_independent()
    ensures { CallsIndependent }
{}

/// The same of an expression.
pub fn expressions_are_independent()
    ensures { ExpressionsIndependent }
{}

/// The same of statements in order.
pub fn statements_are_independent()
    ensures { StatementsIndependent }
{}

/// The second run leaves the trace and the store that the first one left.
pub fn second_run()
    ensures { SecondRun }
{}

/// No other trace and store are left by a run with them.
pub fn only_finish()
    ensures { OnlyFinish }
{}

/// One run is enough: a run that keeps requests alone, which are answered over what it left.
pub fn one_pass()
    ensures { OnePass }
{}
