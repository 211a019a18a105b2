//! What a run leaves is told as its meaning has it. The functions do nothing: their contracts are the laws.

ghost use Rattle.qvt_outputs.specs.Laws.{LinesAreMeant, StatusIsMeant};

/// The line is that of what the program means.
#[tactic(auto, using(crate::proofs::Meant::lines_are_meant))]
pub fn lines_are_meant()
    ensures { LinesAreMeant }
{}

/// The status is that of a fault, of the end of the fuel, of a lower bound, or of a run that has ended well.
#[tactic(auto, using(crate::proofs::Meant::status_is_meant))]
pub fn status_is_meant()
    ensures { StatusIsMeant }
{}
