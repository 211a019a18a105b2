//! Laws of runs that are done. Each function does nothing: its contract is the law.

ghost use Rattle.qvt_cli.specs.Entries.{EntriesAreWritten};

/// A run that has ended well has written its late entries in order.
#[tactic(auto, using(crate::proofs::Ending::entries_are_written))]
pub fn entries_are_written()
    ensures { EntriesAreWritten }
{}
