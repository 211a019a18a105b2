//! The laws of the records of a run. Each function does nothing: its contract is the law.

ghost use Rattle.qvt_meaning.specs.Laws.{OneRecord};
ghost use Rattle.qvt_run_laws.specs.Records.{CallsKeepRecords, ExpressionsKeepRecords, OneIsLeft, OneIsWritten, OneStays, RunsAreKeyed, StatementsKeepRecords};

/// A run that ends well leaves at most one record for each mapping, context and argument list.
pub fn one_record()
    ensures { OneRecord }
{}

/// So does `main` of every run, in whatever state it ends.
pub fn runs_are_keyed()
    ensures { RunsAreKeyed }
{}

/// A call of a unit keeps the records that were there, and writes no second one of a key.
pub fn calls_keep_records()
    ensures { CallsKeepRecords }
{}

/// So does an expression.
pub fn expressions_keep_records()
    ensures { ExpressionsKeepRecords }
{}

/// So do statements in order.
pub fn statements_keep_records()
    ensures { StatementsKeepRecords }
{}

/// A call of a mapping that comes to the step that writes the record, or whose init section returned with a result,
/// leaves exactly one record of its key, with that result.
pub fn one_is_written()
    ensures { OneIsWritten }
{}

/// The one record of a key stays the only one.
pub fn one_stays()
    ensures { OneStays }
{}

/// So a run that ends well leaves exactly one record of each key whose call has come to the step that writes the record,
/// or whose init section returned with a result.
pub fn one_is_left()
    ensures { OneIsLeft }
{}
